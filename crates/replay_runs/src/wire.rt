// The other end of the wire: the data and the replies, by rule. It goes by what is sent, as the Rust's did.
use crate::record::{Fault, Memory, Record};
use dwords::byte_at;
use phases::Transaction;
use std::array;

// Transactions so far, status reads in a row, waits, bytes written. plain: the area is read first, with no fault.
#[derive(Clone, Copy)]
pub struct Wire {
    pub plain: bool,
    pub count: u32,
    pub row: u32,
    pub waits: u32,
    pub written: u64,
}

fn is_status(t: Transaction) -> bool {
    t.reply == 1 && matches!(t.opcode, 0x05 | 0x70)
}

// How many bytes a transaction writes.
fn payload_len(t: Transaction) -> u64 {
    if t.opcode == 0x02 && t.reply == 0 {
        t.len
    } else {
        0
    }
}

// A byte that is never FF.
fn mix(seed: u32, i: u32, j: u64) -> u8 {
    let x = (seed as u64 + 40_503 * (j % 0x1_0000_0000 + 1) + 977 * (i as u64 + 1)) % 65_521;
    (x * 2_654_435_761 / 65_536 % 255) as u8
}

// The data that a command writes, the longest: byte j is the mixed byte j of transaction 255, plus 1.
pub fn data(r: &Record) -> [u8; 64] {
    let seed = r.seed;
    array::from_fn(|j| mix(seed, 255, j as u64).wrapping_add(1))
}

// The length of a reply.
pub fn reply_len(fault: Option<Fault>, t: Transaction) -> u64 {
    match fault {
        Some(Fault::Short) => t.reply.saturating_sub(1),
        Some(Fault::Long) => t.reply.wrapping_add(1),
        Some(Fault::Fails) | None => t.reply,
    }
}

// A byte before anything was written; m is the mixed one.
fn memory_byte(r: &Record, t: Transaction, j: u64, m: u8) -> u8 {
    let is_mixed = match r.memory {
        Memory::Mixed => true,
        Memory::Erased => false,
        Memory::ErasedButLast => t.reply <= j || j == t.reply - 1,
        Memory::ErasedButFirst => j == 0,
    };
    if is_mixed { m } else { 255 }
}

impl Wire {
    pub fn new(plain: bool) -> Wire {
        Wire {
            plain,
            count: 0,
            row: 0,
            waits: 0,
            written: 0,
        }
    }

    // The waits with the one that a status read now begins.
    fn waits_now(self) -> u32 {
        if self.row == 0 {
            self.waits.wrapping_add(1)
        } else {
            self.waits
        }
    }

    // After a transaction.
    pub fn after(self, t: Transaction) -> Wire {
        let (row, waits) = if is_status(t) {
            (self.row.wrapping_add(1), self.waits_now())
        } else {
            (0, self.waits)
        };
        Wire {
            plain: self.plain,
            count: self.count.wrapping_add(1),
            row,
            waits,
            written: self.written.wrapping_add(payload_len(t)),
        }
    }

    // The fault of the transaction that comes now.
    pub fn fault(self, r: &Record) -> Option<Fault> {
        match r.fault {
            Some((fault, at)) if !self.plain && self.count == at as u32 => Some(fault),
            _ => None,
        }
    }

    fn status_byte(self, r: &Record, t: Transaction, m: u8) -> u8 {
        let stuck = (r.stuck_wait as u32) < self.waits_now();
        let busy = stuck || self.row < r.busy_polls as u32;
        if t.opcode == 0x05 {
            m / 2 * 2 + busy as u8
        } else {
            m % 128 + if busy { 0 } else { 128 }
        }
    }

    // A byte of the SFDP area; the second reply may count other headers.
    fn area_byte(self, r: &Record, t: Transaction, j: u64) -> u8 {
        let at = t.address as u64 + j % 0x1_0000_0000;
        let value = byte_at(r.area, at as usize);
        if self.count == 1 && j == 6 && !self.plain {
            value.wrapping_add(r.more_headers)
        } else {
            value
        }
    }

    // A byte that was written, with one of them changed.
    fn echo_byte(self, r: &Record, j: u64, written: &[u8]) -> u8 {
        let value = if j < self.written {
            byte_at(written, (j % 65_536) as usize)
        } else {
            0
        };
        if j == r.changed as u64 {
            value.wrapping_add(1)
        } else {
            value
        }
    }

    fn byte(self, r: &Record, t: Transaction, j: u64, written: &[u8]) -> u8 {
        let m = mix(r.seed, self.count, j);
        match t.opcode {
            _ if is_status(t) => self.status_byte(r, t, m),
            0x5A => self.area_byte(r, t, j),
            0x9F => if j < r.id_prefix as u64 { 0x7F } else { m },
            _ if 0 < self.written => self.echo_byte(r, j, written),
            _ => memory_byte(r, t, j, m),
        }
    }

    // Puts a reply of n bytes, or what fits of it, at the start of a buffer.
    pub fn fill(self, r: &Record, t: Transaction, n: u64, written: &[u8], reply: &mut [u8]) {
        for (j, byte) in (0..n).zip(reply) {
            *byte = self.byte(r, t, j, written);
        }
    }

    // Keeps what a transaction writes, for the readback.
    pub fn keep(self, t: Transaction, part: &[u8], written: &mut [u8]) {
        if 0 < payload_len(t) {
            room::lay(written, self.written, part);
        }
    }
}

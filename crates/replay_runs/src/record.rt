// A record of runs.bin by its fields: what is run, and what the Rust came to. docs/ORACLE.md has its layout.
use crate::outcome::{Answered, Given, Outcome, Sent, Verdict};
use dwords::{byte_at, number_at};
use tallies::{number16_at, number64_at};

#[derive(Clone, Copy, PartialEq, Eq)]
pub enum Command {
    Read,
    LegacyRead,
    ReadParams,
    Erase,
    EraseSectors,
    Program,
    ProgramData,
    Reset,
    ReadJedecId,
    IsBusy,
    IsProtected,
}

impl From<u8> for Command {
    fn from(number: u8) -> Command {
        match number {
            0 => Command::Read,
            1 => Command::LegacyRead,
            2 => Command::ReadParams,
            3 => Command::Erase,
            4 => Command::EraseSectors,
            5 => Command::Program,
            6 => Command::ProgramData,
            7 => Command::Reset,
            8 => Command::ReadJedecId,
            9 => Command::IsBusy,
            _ => Command::IsProtected,
        }
    }
}

impl Command {
    // Whether it gives the bytes that it reads.
    pub fn is_read(self) -> bool {
        matches!(self, Command::Read | Command::LegacyRead)
    }

    // Whether it takes a range of addresses.
    pub fn is_ranged(self) -> bool {
        self.is_read()
            || matches!(
                self,
                Command::EraseSectors | Command::Program | Command::ProgramData
            )
    }
}

// What is done to the capacity before the command. Names, since of an Option<Option<u64>> no reader knows which None leaves it.
#[derive(Clone, Copy)]
pub enum Capacity {
    Left,
    Set(u64),
    Unset,
}

// What a read gives before anything is written: mixed bytes, or FF in all, in all but the last, in all but the first.
#[derive(Clone, Copy, PartialEq, Eq)]
pub enum Memory {
    Mixed,
    Erased,
    ErasedButLast,
    ErasedButFirst,
}

impl From<u8> for Memory {
    fn from(number: u8) -> Memory {
        match number {
            0 => Memory::Mixed,
            1 => Memory::Erased,
            2 => Memory::ErasedButLast,
            _ => Memory::ErasedButFirst,
        }
    }
}

// What goes wrong in a transaction: it fails, or its reply is a byte short or long.
#[derive(Clone, Copy, PartialEq, Eq)]
pub enum Fault {
    Fails,
    Short,
    Long,
}

// No other number is a fault.
impl TryFrom<u8> for Fault {
    type Error = ();

    fn try_from(number: u8) -> Result<Fault, ()> {
        match number {
            1 => Ok(Fault::Fails),
            2 => Ok(Fault::Short),
            3 => Ok(Fault::Long),
            _ => Err(()),
        }
    }
}

// busy_polls: how often each wait says busy. stuck_wait: the first wait, from 0, that stays busy. id_prefix: how many bytes 7F an ID
// starts with. changed: the byte of the readback that is changed. fault: with its transaction, from 0. more_headers is added
// to the count of headers in the second reply of read_params. summary: the digest of all of docs/SCOPE.md's outcome.
#[derive(Clone, Copy)]
pub struct Record<'a> {
    pub command: Command,
    pub reads_area: bool,
    pub address_bytes: Option<u8>,
    pub capacity: Capacity,
    pub erase_opcode: Option<u8>,
    pub verify: bool,
    pub poll_limit: u8,
    pub address: u32,
    pub length: u64,
    pub page_size: Option<u32>,
    pub erase_size: Option<u32>,
    pub seed: u32,
    pub memory: Memory,
    pub busy_polls: u8,
    pub stuck_wait: u8,
    pub id_prefix: u8,
    pub changed: u16,
    pub fault: Option<(Fault, u8)>,
    pub more_headers: u8,
    pub rust: Outcome,
    pub summary: u32,
    pub area: &'a [u8],
}

fn capacity_of(s: &[u8]) -> Capacity {
    match byte_at(s, 3) {
        0 => Capacity::Left,
        1 => Capacity::Set(number64_at(s, 20)),
        _ => Capacity::Unset,
    }
}

fn fault_of(s: &[u8]) -> Option<(Fault, u8)> {
    let fault = Fault::try_from(byte_at(s, 46)).ok()?;
    Some((fault, byte_at(s, 47)))
}

// A size to set; 0 is none.
fn size_of(n: u32) -> Option<u32> {
    (n != 0).then_some(n)
}

fn rust_of(s: &[u8]) -> Outcome {
    Outcome {
        answered: Answered {
            verdict: Verdict::from(byte_at(s, 64)),
            value: number_at(s, 68),
            first: byte_at(s, 72),
            second: byte_at(s, 73),
            third: number16_at(s, 74),
            read: number_at(s, 88),
        },
        sent: Sent {
            count: number_at(s, 76),
            polls: number_at(s, 80) as u64,
            digest: number_at(s, 84),
        },
        given: Given {
            address_bytes: byte_at(s, 92),
            capacity_set: byte_at(s, 93) == 1,
            capacity: number64_at(s, 100),
            page_size: number_at(s, 96),
            erase_size: number_at(s, 108),
        },
        erase_opcode: byte_at(s, 94),
    }
}

impl<'a> Record<'a> {
    pub fn new(s: &'a [u8]) -> Record<'a> {
        let address_bytes = byte_at(s, 2);
        Record {
            command: Command::from(byte_at(s, 0)),
            reads_area: byte_at(s, 1) == 1,
            address_bytes: (address_bytes != 0).then_some(address_bytes),
            capacity: capacity_of(s),
            erase_opcode: (byte_at(s, 4) == 1).then_some(byte_at(s, 5)),
            verify: byte_at(s, 6) == 1,
            poll_limit: byte_at(s, 7),
            address: number_at(s, 8),
            length: number64_at(s, 12),
            page_size: size_of(number_at(s, 28)),
            erase_size: size_of(number_at(s, 32)),
            seed: number_at(s, 36),
            memory: Memory::from(byte_at(s, 40)),
            busy_polls: byte_at(s, 41),
            stuck_wait: byte_at(s, 42),
            id_prefix: byte_at(s, 43),
            changed: number16_at(s, 44),
            fault: fault_of(s),
            more_headers: byte_at(s, 48),
            rust: rust_of(s),
            summary: number_at(s, 124),
            area: s.get(128..).unwrap_or(&[]),
        }
    }
}

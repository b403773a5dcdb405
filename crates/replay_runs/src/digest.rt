// Digests: of all that is sent, in order, and of the bytes that a read gives.
use phases::Transaction;

fn fold(d: u32, x: u32) -> u32 {
    (((d as u64) * 16_777_619 + (x as u64) + 1) % 4_294_967_291) as u32
}

pub fn low(n: u64) -> u32 {
    (n % 0x1_0000_0000) as u32
}

fn fold_all(d: u32, bytes: &[u8]) -> u32 {
    bytes.iter().fold(d, |d, byte| fold(d, *byte as u32))
}

pub fn of_numbers(numbers: &[u32]) -> u32 {
    numbers.iter().fold(0, |d, n| fold(d, *n))
}

// The bytes, then how many they are.
pub fn of_bytes(bytes: &[u8]) -> u32 {
    fold(fold_all(0, bytes), low(bytes.len() as u64))
}

// An address in so many bytes, at most four, the highest first.
fn fold_address(d: u32, bytes: u8, address: u32) -> u32 {
    let unsent = 4u8.saturating_sub(bytes) as usize;
    fold_all(d, &address.to_be_bytes()[unsent..])
}

// A transaction: the bytes on the wire and how many they are, the reply length asked, and the delay after it.
pub fn sent(d: u32, t: Transaction, part: &[u8], delay: u32) -> u32 {
    let head = fold_address(fold(d, t.opcode as u32), t.addressed, t.address);
    let dummy = if t.dummy { fold(head, 0) } else { head };
    let all = fold_all(dummy, part);
    let head_len = 1 + t.addressed as u64 + t.dummy as u64;
    let len = head_len.wrapping_add(part.len() as u64);
    fold(fold(fold(all, low(len)), low(t.reply)), delay)
}

// The replay beside the part: a second slice on which each accepted command is carried out by what it means.
use part_host::{Command, Range};

// A range set to FF.
fn set_ff(image: &mut [u8], range: Range) {
    let all = image.iter_mut();
    for byte in all.skip(range.address as usize).take(range.length as usize) {
        *byte = 0xFF;
    }
}

// A raw write clears bits.
fn clear(image: &mut [u8], from: u32, data: &[u8]) {
    for (byte, sent) in image.iter_mut().skip(from as usize).zip(data) {
        *byte &= *sent;
    }
}

// What an accepted command does to the contents.
pub fn replay(command: Command, data: &[u8], image: &mut [u8]) {
    match command {
        Command::Erase => image.fill(0xFF),
        Command::EraseSectors(range) => set_ff(image, range),
        Command::Program { range, verify: _ } => room::lay(
            image,
            range.address as u64,
            room::payload(data, 0, range.length),
        ),
        Command::ProgramData(range) => {
            clear(image, range.address, room::payload(data, 0, range.length))
        }
        _ => {}
    }
}

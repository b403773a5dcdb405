// Commands: drawn, and judged against the replay.
use crate::image;
use crate::runs::Verdict;
use crate::shapes::Shape;
use commands::Answer;
use flash::Event;
use part_host::source::{Numbers, among};
use part_host::{Command, Play, Range};

// A command, and how many bytes of room are lent for it.
#[derive(Clone, Copy)]
pub struct Call {
    pub command: Command,
    pub room: u64,
}

// read_params with all the room.
pub const FIRST: Call = Call {
    command: Command::ReadParams,
    room: 4096,
};

// ---- drawn

// Below the capacity, one in 16 up to a bit past it.
fn address(x: u64, capacity: u32) -> u32 {
    if x % 16 == 0 {
        among(x / 16, capacity, 64)
    } else {
        among(x / 16, 0, capacity)
    }
}

// Up to 200, one in 16 of them 0, and three in 16 up to so many.
fn length(x: u64, most: u32) -> u64 {
    match x % 16 {
        0 => 0,
        1..=3 => among(x / 16, 1, most) as u64,
        _ => among(x / 16, 1, 200) as u64,
    }
}

// A range of whole blocks of the smallest size.
fn aligned(range: Range, x: u64, shape: Shape) -> Range {
    let size = shape.erases.first().size;
    match range.address.checked_rem(size) {
        Some(past) => Range {
            address: range.address.wrapping_sub(past),
            length: size.wrapping_mul(among(x, 1, 4)) as u64,
        },
        None => range,
    }
}

fn command(n: Numbers, shape: Shape) -> Command {
    let [a, b, c, d, _, f] = n;
    let range = Range {
        address: address(b, shape.capacity),
        length: length(c, 200),
    };
    // A read may be longer.
    let long = Range {
        length: length(c, 4200),
        ..range
    };
    match a % 20 {
        0..=2 => Command::Read(long),
        3 => Command::LegacyRead(long),
        4 => Command::ReadParams,
        5 => Command::Erase,
        6..=8 if d % 8 == 0 => Command::EraseSectors(range),
        6..=8 => Command::EraseSectors(aligned(range, f, shape)),
        9..=13 => Command::Program {
            range,
            verify: d % 2 == 0,
        },
        14 | 15 => Command::ProgramData(range),
        16 => Command::Reset,
        17 => Command::ReadJedecId,
        18 => Command::IsBusy,
        _ => Command::IsProtected,
    }
}

pub fn drawn(n: Numbers, shape: Shape) -> Call {
    let [.., e, f] = n;
    Call {
        command: command(n, shape),
        room: if e % 16 == 0 { f % 256 } else { 4096 },
    }
}

// ---- judged

fn answer(play: Play) -> Option<Answer> {
    match play.stepped.event {
        Event::Send(_) => None,
        Event::Answered(a, _) => Some(a),
    }
}

fn is_refusal(a: Answer) -> bool {
    matches!(
        a,
        Answer::InvalidAddress(_)
            | Answer::NoResetInstruction
            | Answer::NoEraseInstruction
            | Answer::NoRoom(_)
    )
}

// A read, an erase or a write ends Done; any other command ends with an answer.
fn ends_well(command: Command, a: Answer) -> bool {
    match command {
        Command::ReadParams
        | Command::Reset
        | Command::ReadJedecId
        | Command::IsBusy
        | Command::IsProtected => true,
        _ => a.number() == 0,
    }
}

// Whether a read's bytes are those of the replay.
fn reads_well(command: Command, work: &[u8], image: &[u8]) -> bool {
    match command {
        Command::Read(r) | Command::LegacyRead(r) => {
            work.starts_with(room::payload(image, r.address, r.length))
        }
        _ => true,
    }
}

// The verdict on a command that ended so: the image is replayed, and all is compared.
pub fn judge(
    command: Command,
    play: Play,
    data: &[u8],
    work: &[u8],
    memory: &[u8],
    image: &mut [u8],
) -> Verdict {
    let a = answer(play);
    let refused = a.is_some_and(is_refusal);
    if !refused {
        image::replay(command, data, image);
    }
    let ended = a.is_some_and(|a| ends_well(command, a)) && reads_well(command, work, image);
    let kept = memory == image && play.state.busy == 0;
    Verdict {
        refused,
        good: (refused || ended) && kept,
    }
}

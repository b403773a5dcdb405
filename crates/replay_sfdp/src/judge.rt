// Which class a record falls in.
use crate::fields;
use dwords::{byte_at, dword_at};
use sfdp::{FlashParams, SFDPError};
use std::fmt;
use tallies::{Classed, Known, is_table_short, table_of};

// Where the Rust is known to part from docs/SCOPE.md.
#[derive(Clone, Copy)]
pub enum Difference {
    S1,
    S2,
    S3,
    S4,
    S5,
    S6,
    S7,
    S6AndS7,
}

pub const DIFFERENCES: [Difference; 8] = [
    Difference::S1,
    Difference::S2,
    Difference::S3,
    Difference::S4,
    Difference::S5,
    Difference::S6,
    Difference::S7,
    Difference::S6AndS7,
];

impl fmt::Display for Difference {
    fn fmt<W: fmt::Write>(&self, f: &mut fmt::Formatter<W>) -> fmt::Result {
        f.write_str(match self {
            Difference::S1 => "S1 density exponent, the Rust panics",
            Difference::S2 => "S2 size exponent, the Rust panics",
            Difference::S3 => "S3 minor 5 and a short table, the Rust panics",
            Difference::S4 => "S4 minor 6 or more and a short table, the Rust refuses",
            Difference::S5 => "S5 access protocol, the Rust refuses",
            Difference::S6 => "S6 several volatility bits",
            Difference::S7 => "S7 a tie in the smallest type",
            Difference::S6AndS7 => "S6 and S7",
        })
    }
}

impl Known for Difference {
    fn place(self) -> usize {
        self as usize
    }
}

impl Classed for Difference {
    fn class_of(record: &[u8]) -> Class {
        class_of(record)
    }
}

pub type Class = tallies::Class<Difference>;

// What an area comes to: the parameters, an answer without them, or the Rust's panic.
#[derive(Clone, Copy, PartialEq, Eq)]
enum Outcome {
    Params,
    NoSFDP,
    InvalidSFDPHeader,
    InvalidSFDPParams,
    Panic,
}

// The number that a record has for it. The Rust's None has a number of its own beside docs/SCOPE.md's.
impl TryFrom<u8> for Outcome {
    type Error = ();

    fn try_from(number: u8) -> Result<Outcome, ()> {
        match number {
            0 => Ok(Outcome::Params),
            1 | 12 => Ok(Outcome::NoSFDP),
            3 => Ok(Outcome::InvalidSFDPHeader),
            4 => Ok(Outcome::InvalidSFDPParams),
            255 => Ok(Outcome::Panic),
            _ => Err(()),
        }
    }
}

impl From<Result<FlashParams, SFDPError>> for Outcome {
    fn from(read: Result<FlashParams, SFDPError>) -> Outcome {
        match read {
            Ok(_) => Outcome::Params,
            Err(SFDPError::NoSFDP) => Outcome::NoSFDP,
            Err(SFDPError::InvalidSFDPHeader) => Outcome::InvalidSFDPHeader,
            Err(SFDPError::InvalidSFDPParams) => Outcome::InvalidSFDPParams,
        }
    }
}

// A panic of the Rust: too large an exponent that we refuse by 4, or a short table of minor 5 that we accept.
fn panicked(area: &[u8], ours: Outcome) -> Class {
    match ours {
        Outcome::Params if is_table_short(area) && byte_at(area, 9) == 5 => {
            Class::Known(Difference::S3)
        }
        Outcome::InvalidSFDPParams if 0x8000_0040 <= dword_at(table_of(area), 2) => {
            Class::Known(Difference::S1)
        }
        Outcome::InvalidSFDPParams => Class::Known(Difference::S2),
        _ => Class::Unlisted,
    }
}

// Another answer of the Rust: it refuses what we accept.
fn refused(area: &[u8], rust: Outcome, ours: Outcome) -> Class {
    match (rust, ours) {
        (Outcome::NoSFDP, _) if byte_at(area, 7) != 255 => Class::Known(Difference::S5),
        (Outcome::InvalidSFDPParams, Outcome::Params)
            if is_table_short(area) && 6 <= byte_at(area, 9) => { Class::Known(Difference::S4) }
        _ => Class::Unlisted,
    }
}

// Both give parameters.
fn compared(volatility: bool, sector: bool, rest: bool) -> Class {
    match (rest, volatility, sector) {
        (false, _, _) => Class::Unlisted,
        (true, true, true) => Class::Same,
        (true, true, false) => Class::Known(Difference::S7),
        (true, false, true) => Class::Known(Difference::S6),
        (true, false, false) => Class::Known(Difference::S6AndS7),
    }
}

// area: an SFDP area; want: the 128 bytes that a record says of it.
fn class_of_area(area: &[u8], want: &[u8]) -> Class {
    let read = sfdp::read_area(area);
    let ours = Outcome::from(read);
    let Ok(rust) = Outcome::try_from(byte_at(want, 0)) else {
        return Class::Unlisted;
    };
    if rust == Outcome::Panic {
        return panicked(area, ours);
    }
    if rust != ours {
        return refused(area, rust, ours);
    }
    match read {
        Ok(p) => compared(
            fields::same_volatility(p, want),
            fields::same_sector(p, want),
            fields::same(p, want),
        ),
        Err(_) => Class::Same,
    }
}

// A record: an area, and 128 bytes that say what it holds.
fn class_of(record: &[u8]) -> Class {
    match record.split_last_chunk::<128>() {
        Some((area, want)) => class_of_area(area, want),
        None => Class::Unlisted,
    }
}

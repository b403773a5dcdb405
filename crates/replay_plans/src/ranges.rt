// The range check.
use dwords::{byte_at, number_at};
use settings::Settings;
use std::fmt;
use tallies::{Classed, Known, is_one_past, number64_at};

// Where the Rust is known to part from docs/SCOPE.md.
#[derive(Clone, Copy)]
pub enum Difference {
    R1,
    R2,
    R3,
}

pub const DIFFERENCES: [Difference; 3] = [Difference::R1, Difference::R2, Difference::R3];

impl fmt::Display for Difference {
    fn fmt<W: fmt::Write>(&self, f: &mut fmt::Formatter<W>) -> fmt::Result {
        f.write_str(match self {
            Difference::R1 => "R1 one byte past the address bytes' limit, the Rust accepts",
            Difference::R2 => "R2 length 0 at address 0, the Rust panics",
            Difference::R3 => "R3 the sum passes 64 bits, the Rust panics",
        })
    }
}

impl Known for Difference {
    fn place(self) -> usize {
        self as usize
    }
}

impl Classed for Difference {
    fn class_of(record: &[u8]) -> Class {
        class_of(record)
    }
}

pub type Class = tallies::Class<Difference>;

// What the Rust makes of a range.
#[derive(Clone, Copy, PartialEq, Eq)]
pub enum Verdict {
    Accepted,
    Refused,
    Panic,
}

// The number that a record has for it.
impl TryFrom<u8> for Verdict {
    type Error = ();

    fn try_from(number: u8) -> Result<Verdict, ()> {
        match number {
            0 => Ok(Verdict::Accepted),
            5 => Ok(Verdict::Refused),
            255 => Ok(Verdict::Panic),
            _ => Err(()),
        }
    }
}

// The settings of a record: address bytes, and the capacity if it is set.
fn settings_of(s: &[u8]) -> Settings {
    let mut t = Settings::new();
    t.address_bytes = byte_at(s, 0);
    if byte_at(s, 1) == 1 {
        t.set_capacity(number64_at(s, 16))
    } else {
        t
    }
}

// A range that we refuse, reporting last.
fn refused(s: &[u8], verdict: Verdict, last: u32) -> Class {
    let address = number_at(s, 4);
    let length = number64_at(s, 8);
    match verdict {
        Verdict::Refused if number_at(s, 24) == last => Class::Same,
        Verdict::Accepted if is_one_past(byte_at(s, 0), address, length) => {
            Class::Known(Difference::R1)
        }
        Verdict::Panic if length == 0 && address == 0 => Class::Known(Difference::R2),
        Verdict::Panic if length != 0 && u64::MAX - length < address as u64 => {
            Class::Known(Difference::R3)
        }
        _ => Class::Unlisted,
    }
}

fn class_of(s: &[u8]) -> Class {
    // A number of none of them is taken for a panic.
    let verdict = Verdict::try_from(byte_at(s, 2)).unwrap_or(Verdict::Panic);
    match settings_of(s).check_address_length(number_at(s, 4), number64_at(s, 8)) {
        Err(report) => refused(s, verdict, report.last),
        Ok(()) if verdict == Verdict::Accepted => Class::Same,
        Ok(()) => Class::Unlisted,
    }
}

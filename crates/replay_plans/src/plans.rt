// The plans, entry by entry.
ghost use Rattle.std.specs.Prelude.{◌<◌};

use crate::ranges::Verdict;
use dwords::{byte_at, number_at};
use erase_plan::{EraseEntry, EraseType, EraseTypes, NextEntry};
use std::fmt;
use tallies::{Classed, Known, number64_at};

// Where the Rust is known to part from docs/SCOPE.md.
#[derive(Clone, Copy)]
pub enum Difference {
    P1,
    // Refused as a range.
    Panic,
}

pub const DIFFERENCES: [Difference; 2] = [Difference::P1, Difference::Panic];

impl fmt::Display for Difference {
    fn fmt<W: fmt::Write>(&self, f: &mut fmt::Formatter<W>) -> fmt::Result {
        f.write_str(match self {
            Difference::P1 => "P1 a type of one byte beside others, the Rust takes the larger",
            Difference::Panic => "refused as ranges, the Rust panics",
        })
    }
}

impl Known for Difference {
    fn place(self) -> usize {
        self as usize
    }
}

impl Classed for Difference {
    fn class_of(record: &[u8]) -> Class {
        class_of(record)
    }
}

pub type Class = tallies::Class<Difference>;

// Type i, from 0; one past the record's number of types has size 0.
fn type_at(s: &[u8], i: u8) -> EraseType
    requires { i < 4 }
{
    if byte_at(s, 0) <= i {
        return EraseType::NONE;
    }
    let at = 16 + 12 * i as u16;
    EraseType {
        size: number_at(s, at),
        opcode: byte_at(s, at as usize + 4),
        timed: byte_at(s, at as usize + 5) == 1,
        time: number_at(s, at + 8),
    }
}

fn types_of(s: &[u8]) -> EraseTypes {
    erase_plan::sorted(type_at(s, 0), type_at(s, 1), type_at(s, 2), type_at(s, 3))
}

// The record's entry k.
fn entry_at(s: &[u8], k: u8) -> EraseEntry {
    let at = 64 + 16 * (k % 12) as u16;
    EraseEntry {
        opcode: byte_at(s, at as usize),
        timed: byte_at(s, at as usize + 1),
        size: number_at(s, at + 4),
        base: number_at(s, at + 8),
        time: number_at(s, at + 12),
    }
}

// A walk along a plan: how many entries it passed, and whether it came to the end and all were the record's.
#[derive(Clone, Copy)]
struct Walk {
    count: u8,
    same: bool,
}

// At most 13 entries: a record has 12 or fewer.
fn walked(s: &[u8], ts: EraseTypes, from: u32, last: u32) -> Walk {
    let mut at = from;
    let mut same = true;
    for count in 0..13 {
        match erase_plan::next_entry(ts, at, last) {
            None => return Walk { count, same },
            Some(NextEntry { entry, stop }) => {
                same = same && entry == entry_at(s, count);
                if stop == last {
                    return Walk {
                        count: count + 1,
                        same,
                    };
                }
                at = stop.wrapping_add(1);
            }
        }
    }
    Walk {
        count: 13,
        same: false,
    }
}

fn has_one_byte(s: &[u8]) -> bool {
    [16, 28, 40, 52].iter().any(|at| number_at(s, *at) == 1)
}

// A range that ends at 2^32 or below.
fn compared(s: &[u8], at: u32, length: u64) -> Class {
    let low = (length % 0x1_0000_0000) as u32;
    let walk = if length == 0 {
        Walk {
            count: 0,
            same: true,
        }
    } else {
        let last = at.wrapping_add(low).wrapping_sub(1);
        walked(s, types_of(s), at, last)
    };
    if walk.count != byte_at(s, 1) {
        Class::Unlisted
    } else if walk.same {
        Class::Same
    } else if has_one_byte(s) {
        Class::Known(Difference::P1)
    } else {
        Class::Unlisted
    }
}

fn class_of(s: &[u8]) -> Class {
    let at = number_at(s, 4);
    let length = number64_at(s, 8);
    if length <= 0x1_0000_0000 - at as u64 {
        compared(s, at, length)
    } else if Verdict::try_from(byte_at(s, 2)) == Ok(Verdict::Panic) {
        Class::Known(Difference::Panic)
    } else {
        Class::Unlisted
    }
}

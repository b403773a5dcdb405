// The classes of docs/ORACLE.md, from a record's inputs and what the Rust came to.
ghost use Rattle.std.specs.Prelude.{◌<◌};

use crate::outcome::{
    ACCESS, Alike, BUSY, INVALID_ADDRESS, INVALID_SFDP_PARAMS, NO_SFDP, Outcome, Verdict,
};
use crate::play;
use crate::play::Rooms;
use crate::record::{Command, Fault, Memory, Record};
use dwords::{byte_at, dword_at};
use flash::Session;
use std::fmt;
use tallies::{Classed, Known, is_one_past, is_table_short, table_of};

// Where the Rust is known to part from docs/SCOPE.md.
#[derive(Clone, Copy)]
pub enum Difference {
    C1,
    C2,
    C3,
    C4,
    C5,
    C6,
    C7,
    C8,
    C9,
    C10,
    C11,
    R1,
    R2,
    R3,
    P2,
    S1,
    S2,
    S3,
    S4,
    S5,
    S7,
}

pub const DIFFERENCES: [Difference; 21] = [
    Difference::C1,
    Difference::C2,
    Difference::C3,
    Difference::C4,
    Difference::C5,
    Difference::C6,
    Difference::C7,
    Difference::C8,
    Difference::C9,
    Difference::C10,
    Difference::C11,
    Difference::R1,
    Difference::R2,
    Difference::R3,
    Difference::P2,
    Difference::S1,
    Difference::S2,
    Difference::S3,
    Difference::S4,
    Difference::S5,
    Difference::S7,
];

impl Difference {
    fn text(self) -> &'static str {
        match self {
            Difference::C1 => "C1 erase_sectors up to 2^32, the Rust panics",
            Difference::C2 => "C2 erase_sectors of 2^32 bytes, the Rust refuses",
            Difference::C3 => "C3 program up to 2^32, the Rust panics",
            Difference::C4 => "C4 program's span past the limits, the Rust reads first",
            Difference::C5 => "C5 program_data past the limits, the Rust writes",
            Difference::C6 => "C6 program_data inside a page, the Rust panics",
            Difference::C7 => "C7 program_data of nothing off a page, the Rust panics",
            Difference::C8 => "C8 program inside a page, the Rust panics",
            Difference::C9 => "C9 a reply of another length, the Rust takes it or panics",
            Difference::C10 => "C10 more polls than the limit, the Rust polls on",
            Difference::C11 => "C11 the second reply counts more headers, the Rust finds no SFDP",
            Difference::R1 => "R1 one byte past the address bytes' limit, the Rust accepts",
            Difference::R2 => "R2 length 0 at address 0, the Rust panics",
            Difference::R3 => "R3 the sum passes 64 bits, the Rust panics",
            Difference::P2 => "P2 4 KiB erase with opcode FF, the Rust sends it",
            Difference::S1 => "S1 density exponent 64 or more, the Rust panics",
            Difference::S2 => "S2 size exponent 32 or more, the Rust panics",
            Difference::S3 => "S3 minor 5 with 9 to 15 dwords, the Rust panics",
            Difference::S4 => "S4 minor 6 or more with 9 to 15 dwords, the Rust refuses",
            Difference::S5 => "S5 access protocol byte not FF, the Rust finds no SFDP",
            Difference::S7 => "S7 the smallest size twice, the Rust takes the first opcode",
        }
    }
}

impl fmt::Display for Difference {
    fn fmt<W: fmt::Write>(&self, f: &mut fmt::Formatter<W>) -> fmt::Result {
        f.write_str(self.text())
    }
}

impl Known for Difference {
    fn place(self) -> usize {
        self as usize
    }
}

impl Classed for Difference {
    // The record's run is played by the driver.
    fn class_of(record: &[u8]) -> Class {
        let r = Record::new(record);
        let mut rooms = Rooms::new();
        let fresh = play::with_area(&r, &mut rooms);
        let before = play::with_settings(&r, fresh);
        let begun = play::begun(play::start(&r, before, &mut rooms.work), false);
        let p = play::played(&r, begun, &mut rooms);
        class_of(&r, before, &Outcome::of(&r, p, &rooms.work))
    }
}

pub type Class = tallies::Class<Difference>;

fn given(holds: bool, difference: Difference) -> Class {
    if holds {
        Class::Known(difference)
    } else {
        Class::Unlisted
    }
}

// ---- ranges

fn is_refused(r: &Record, before: Session) -> bool {
    let check = before.settings.check_address_length(r.address, r.length);
    check.is_err()
}

// A range that we refuse.
fn range_class(r: &Record, before: Session) -> Class {
    if r.address == 0 && r.length == 0 {
        return Class::Known(Difference::R2);
    }
    if u64::MAX - r.length < r.address as u64 {
        return Class::Known(Difference::R3);
    }
    given(
        is_one_past(before.settings.address_bytes, r.address, r.length),
        Difference::R1,
    )
}

// Whether the range ends at 2^32.
fn ends_at_top(r: &Record) -> bool {
    r.length == 0x1_0000_0000 - r.address as u64
}

// ---- plans

// No type, and 4 KiB with opcode FF.
fn is_p2(before: Session) -> bool {
    let p = before.params;
    before.known
        && p.sector_erase().is_none()
        && p.legacy_4kb_erase_supported
        && p.legacy_4kb_erase_inst == 0xFF
}

// Whether a write of so many bytes from an address on ends in its first page, which it does not start.
fn ends_in_page(before: Session, address: u32, length: u64) -> bool {
    let page = before.settings.page();
    if page == 0 {
        return false;
    }
    // No page is longer than 32,768.
    let off = address % page % 32_768;
    length < page as u64 && off != 0 && off as u64 + length < page as u64
}

// Whether a program writes in the first page alone: to the end of its data where all that it reads is FF, else of its span.
fn is_c8(r: &Record, before: Session) -> bool {
    let low = (r.length % 0x1_0000_0000) as u32;
    let last = r.address.wrapping_add(low).wrapping_sub(1);
    let types = plans::erase_types(before.settings, before.known, before.params);
    let span = erase_plan::survey(types, r.address, last);
    let end = if r.memory == Memory::Erased {
        last as u64 + 1
    } else {
        span.end
    };
    ends_in_page(before, span.first, end.saturating_sub(span.first as u64))
}

// ---- read_params

// The size exponent of the type whose two bytes stand at a place of the table.
fn exponent(table: &[u8], at: usize) -> Option<u8>
    requires { at < 64 }
{
    match (byte_at(table, at), byte_at(table, at + 1)) {
        (0, _) | (_, 0) => None,
        (exponent, _) => Some(exponent),
    }
}

fn exponents(area: &[u8]) -> [Option<u8>; 4] {
    let table = table_of(area);
    [
        exponent(table, 28),
        exponent(table, 30),
        exponent(table, 32),
        exponent(table, 34),
    ]
}

// Whether two types have the smallest size.
fn is_smallest_twice(area: &[u8]) -> bool {
    let exponents = exponents(area);
    match exponents.iter().flatten().min() {
        Some(least) => 1 < exponents.iter().flatten().filter(|e| *e == least).count(),
        None => false,
    }
}

fn panic_in_params(area: &[u8]) -> Class {
    if byte_at(area, 11) < 9 {
        return Class::Unlisted;
    }
    if 0x8000_0040 <= dword_at(table_of(area), 2) {
        return Class::Known(Difference::S1);
    }
    if exponents(area).iter().flatten().any(|e| 32 <= *e) {
        return Class::Known(Difference::S2);
    }
    given(
        byte_at(area, 9) == 5 && is_table_short(area),
        Difference::S3,
    )
}

fn params_class(r: &Record) -> Class {
    let area = r.area;
    let headers = byte_at(area, 6);
    match r.rust.answered.verdict {
        Verdict::Answer(NO_SFDP) if byte_at(area, 7) == 0xFF => given(
            headers < headers.wrapping_add(r.more_headers),
            Difference::C11,
        ),
        Verdict::Answer(NO_SFDP) => Class::Known(Difference::S5),
        Verdict::Answer(INVALID_SFDP_PARAMS) => given(
            6 <= byte_at(area, 9) && is_table_short(area),
            Difference::S4,
        ),
        Verdict::Panic => panic_in_params(area),
        _ => Class::Unlisted,
    }
}

// ---- commands

fn sectors_class(r: &Record) -> Class {
    let rust = r.rust.answered;
    if !ends_at_top(r) {
        return Class::Unlisted;
    }
    if r.address == 0 {
        let is_bad = rust.verdict == Verdict::Answer(INVALID_ADDRESS);
        return given(is_bad && rust.value == 0, Difference::C2);
    }
    given(rust.verdict == Verdict::Panic, Difference::C1)
}

fn program_class(r: &Record, before: Session) -> Class {
    if r.rust.answered.verdict != Verdict::Panic {
        return Class::Unlisted;
    }
    if ends_at_top(r) {
        return Class::Known(Difference::C3);
    }
    given(is_c8(r, before), Difference::C8)
}

fn data_class(r: &Record, before: Session) -> Class {
    let panics = r.rust.answered.verdict == Verdict::Panic;
    let difference = if r.length == 0 {
        Difference::C7
    } else {
        Difference::C6
    };
    given(
        panics && ends_in_page(before, r.address, r.length),
        difference,
    )
}

fn refused_span(r: &Record) -> Class {
    match r.rust.answered.verdict {
        Verdict::Panic if ends_at_top(r) => Class::Known(Difference::C3),
        Verdict::Answer(INVALID_ADDRESS | ACCESS) => given(r.rust.sent.count == 1, Difference::C4),
        _ => Class::Unlisted,
    }
}

// A reply of another length, that both sides saw and that ended our run.
fn is_c9(r: &Record, ours: &Outcome) -> bool {
    match r.fault {
        Some((Fault::Short | Fault::Long, at)) => {
            ours.answered.verdict == Verdict::Answer(ACCESS)
                && ours.sent.count == at as u32 + 1
                && (at as u32) < r.rust.sent.count
        }
        _ => false,
    }
}

// A run that is not refused at its start.
fn run_class(r: &Record, before: Session, ours: &Outcome, alike: Alike) -> Class {
    if is_c9(r, ours) {
        return Class::Known(Difference::C9);
    }
    if r.rust.answered.verdict == Verdict::Stuck {
        let is_busy = ours.answered.verdict == Verdict::Answer(BUSY);
        return given(
            is_busy && alike.wire && alike.settings && alike.opcode,
            Difference::C10,
        );
    }
    match r.command {
        Command::ReadParams => params_class(r),
        Command::EraseSectors => sectors_class(r),
        Command::Program => program_class(r, before),
        Command::ProgramData => data_class(r, before),
        _ => Class::Unlisted,
    }
}

fn differs(r: &Record, before: Session, ours: &Outcome, alike: Alike) -> Class {
    let is_bad = ours.answered.verdict == Verdict::Answer(INVALID_ADDRESS);
    if alike.answer && alike.wire && alike.settings {
        return given(is_smallest_twice(r.area), Difference::S7);
    }
    if r.command.is_ranged() && is_refused(r, before) {
        if r.command != Command::ProgramData {
            return if is_bad {
                range_class(r, before)
            } else {
                Class::Unlisted
            };
        }
        if 0 < r.length {
            return given(is_bad, Difference::C5);
        }
    }
    match r.command {
        Command::EraseSectors | Command::Program if is_p2(before) => Class::Known(Difference::P2),
        Command::Program if is_bad => refused_span(r),
        _ => run_class(r, before, ours, alike),
    }
}

// before: the session that the command starts from.
fn class_of(r: &Record, before: Session, ours: &Outcome) -> Class {
    if ours.summary() != r.summary {
        return Class::Wrong;
    }
    let alike = ours.compare(&r.rust);
    if alike.answer && alike.wire && alike.settings && alike.opcode {
        Class::Same
    } else {
        differs(r, before, ours, alike)
    }
}

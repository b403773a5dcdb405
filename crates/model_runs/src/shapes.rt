// Parts of several shapes, each with the settings that fit it, and parts that break a premise.
ghost use Rattle.std.specs.Prelude.{◌≤◌};

use flash::Session;
use nor_part::{Erase, Part};
use part_host::source::{Numbers, among};
use settings::{SettingError, Settings};
use std::fmt;

// What is broken of a part.
#[derive(Clone, Copy, PartialEq, Eq)]
pub enum Flaw {
    Poll,
    Address,
    Page,
    Slow,
    Busy,
    Size,
}

impl fmt::Display for Flaw {
    fn fmt<W: fmt::Write>(&self, f: &mut fmt::Formatter<W>) -> fmt::Result {
        f.write_str(match self {
            Flaw::Poll => "poll not offered",
            Flaw::Address => "other address bytes",
            Flaw::Page => "page that the driver's does not divide",
            Flaw::Slow => "busy beyond the limit",
            Flaw::Busy => "not idle at first",
            Flaw::Size => "erase opcode of another size",
        })
    }
}

// An erase type of the SFDP area: 2 to the power of exponent bytes.
#[derive(Clone, Copy)]
pub struct Type {
    pub opcode: u8,
    pub exponent: u8,
}

// The erases, and how the driver is told of them.
#[derive(Clone, Copy)]
pub enum Erases {
    // A single one, set by hand with the page: there is no area.
    ByHand(Erase),
    // The area has 4 KiB alone.
    Legacy,
    // The area has three types.
    Types([Type; 3]),
}

// A part as the driver is told of it. page: the driver's; the part's is so many times as large.
#[derive(Clone, Copy)]
pub struct Shape {
    pub erases: Erases,
    pub flagged: bool,
    pub addressed: u8,
    pub capacity: u32,
    pub page: u32,
    pub times: u32,
}

// ---- shapes

impl Type {
    fn erase(self) -> Erase {
        Erase {
            opcode: self.opcode,
            size: 1 << self.exponent.min(31),
        }
    }
}

impl Erases {
    // The smallest, or the only one.
    pub fn first(self) -> Erase {
        match self {
            Erases::ByHand(erase) => erase,
            Erases::Legacy => Erase {
                opcode: 0x20,
                size: 4096,
            },
            Erases::Types(types) => types[0].erase(),
        }
    }

    fn all(self) -> [Option<Erase>; 4] {
        match self {
            Erases::Types(types) => {
                let [a, b, c] = types.map(|t| Some(t.erase()));
                [a, b, c, None]
            }
            _ => [Some(self.first()), None, None, None],
        }
    }
}

// A size that need not be a power of two.
fn odd_erase(n: Numbers) -> Erases {
    let sizes = [1, 3, 5, 7, 24, 100, 333, 1000];
    let opcodes = [0x20, 0xD7, 0x52, 0x00, 0xFF];
    Erases::ByHand(Erase {
        opcode: opcodes[(n[1] / 4 % 5) as usize],
        size: sizes[(n[0] / 4 % 8) as usize],
    })
}

// Three sizes, or two types of one size and a larger one.
fn types(n: Numbers, alike: bool) -> Erases {
    let exponent = (n[0] / 4 % 6 + 1) as u8;
    Erases::Types([
        Type {
            opcode: 0x21,
            exponent,
        },
        Type {
            opcode: 0x20,
            exponent: if alike { exponent } else { exponent + 2 },
        },
        Type {
            opcode: 0xD8,
            exponent: exponent + 4,
        },
    ])
}

fn draw_erases(n: Numbers, addressed: u8, flaw: Option<Flaw>) -> Erases {
    match n[0] % 4 {
        _ if flaw == Some(Flaw::Poll) => types(n, false),
        0 => odd_erase(n),
        1 => types(n, false),
        2 => types(n, true),
        _ if addressed == 1 => odd_erase(n),
        _ => Erases::Legacy,
    }
}

// Half of them 4,096, as are those whose area has 4 KiB alone; 256 with one address byte.
fn capacity(x: u64, addressed: u8, erases: Erases) -> u32 {
    match erases {
        Erases::Legacy => 4096,
        _ if addressed == 1 => 256,
        _ if x % 2 == 0 => 4096,
        _ => among(x / 2, 300, 3796),
    }
}

pub fn draw(n: Numbers, flaw: Option<Flaw>) -> Shape {
    let [_, b, c, d, e, f] = n;
    let addressed = (b % 4 + 1) as u8;
    let erases = draw_erases(n, addressed, flaw);
    Shape {
        erases,
        flagged: flaw == Some(Flaw::Poll) || f % 2 == 0,
        addressed,
        capacity: capacity(c, addressed, erases),
        page: match erases {
            Erases::ByHand(_) => among(d, 2, 299),
            _ => 1 << (d % 8 + 1),
        },
        times: among(e, 1, 4),
    }
}

// ---- the part

pub fn part<'a>(s: Shape, flaw: Option<Flaw>, area: &'a [u8]) -> Part<'a> {
    let mut part = Part {
        addressed: s.addressed,
        page: s.page.wrapping_mul(s.times),
        flagged: s.flagged,
        erases: s.erases.all(),
        id: &part_host::ID,
        sfdp: area,
    };
    match flaw {
        Some(Flaw::Address) => part.addressed = s.addressed % 4 + 1,
        Some(Flaw::Page) => part.page = s.page.wrapping_add(1),
        Some(Flaw::Poll) => part.flagged = false,
        Some(Flaw::Size) => double(&mut part.erases),
        _ => {}
    }
    part
}

fn double(erases: &mut [Option<Erase>]) {
    for entry in erases.iter_mut() {
        if let Some(erase) = entry {
            erase.size = erase.size.wrapping_mul(2);
        }
    }
}

// ---- its SFDP area

// The parts of the area that differ: dwords 1 and 2, 8 and 9, 11, 14, 16.
fn vary(s: Shape, area: &mut [u8]) {
    let (erase, opcode) = match s.erases {
        Erases::Legacy => (0x01, 0x20),
        _ => (0x03, 0xFF),
    };
    let wide = if s.addressed == 4 { 4 } else { 0 };
    let bits = s.capacity.wrapping_mul(8).wrapping_sub(1).to_le_bytes();
    room::lay(area, 16, &[erase, opcode, wide, 0, bits[0], bits[1]]);
    // An opcode whose size exponent is 0 is no type: where 4 KiB is alone, the first place has one.
    let types = match s.erases {
        Erases::Types(types) => types.map(|t| [t.exponent, t.opcode]),
        _ => [[0, 0x20], [0, 0], [0, 0]],
    };
    room::lay(area, 44, types.as_flattened());
    room::lay(area, 56, &[s.page.trailing_zeros() as u8 % 16 * 16]);
    let (poll, reset) = if s.flagged { (8, 0x10) } else { (4, 0x08) };
    room::lay(area, 68, &[poll]);
    room::lay(area, 77, &[reset]);
}

// Fills 80 bytes: the header, a parameter header, 16 dwords. An area that is not there stays FF.
pub fn put_area(s: Shape, area: &mut [u8]) {
    let header = [
        0x53, 0x46, 0x44, 0x50, 0x06, 0x01, 0x00, 0xFF, 0x00, 0x06, 0x01, 0x10, 0x10, 0x00, 0x00,
        0xFF,
    ];
    if let Erases::ByHand(_) = s.erases {
        return;
    }
    area.fill(0);
    room::lay(area, 0, &header);
    vary(s, area);
}

// ---- the settings that fit it

// How many of the driver's setters there are before a command.
pub const SETTERS: u64 = 2;

// A part of the page; 1 where there is none so large.
fn divided(page: u32, by: u32) -> u64
    requires { 1 ≤ by }
{
    if page % by == 0 {
        (page / by) as u64
    } else {
        1
    }
}

// A page that divides the part's, or one that is refused.
fn page(x: u64, page: u32) -> u64 {
    match x % 8 {
        0 => divided(page, 2),
        1 => divided(page, 3),
        2 => divided(page, 5),
        3 => 0,
        4 => 32_769 + x / 8 % 1000,
        _ => page as u64,
    }
}

// A poll limit up to 20, or one that is refused.
fn limit(x: u64) -> u32 {
    match x % 8 {
        0 => 0,
        1 => among(x / 8, 65_536, 1000),
        _ => among(x / 8, 1, 20),
    }
}

fn settled(before: Settings, given: Result<Settings, SettingError>) -> Settings {
    given.unwrap_or(before)
}

// Address bytes, capacity, the erase, which matters where the area gives none, and the page.
fn told(s: Shape, before: Settings) -> Settings {
    let erase = s.erases.first();
    let a = settled(before, before.set_address_bytes(s.addressed));
    let b = a.set_capacity(s.capacity as u64);
    let c = settled(b, b.set_erase_size(erase.size as u64));
    let d = c.set_erase_opcode(erase.opcode);
    settled(d, d.set_page_size(s.page as u64))
}

// All that; then the driver's setters for another page and a poll limit, which may be refused.
pub fn fitted(s: Shape, n: Numbers, before: Session) -> Session {
    let mut session = before;
    session.settings = told(s, before.settings);
    session = session.set_page_size(page(n[2], s.page)).session;
    session.set_poll_limit(limit(n[3])).session
}

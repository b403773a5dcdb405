// What the programs that replay a list share: its records are read, counted by class, and each count is a line.
#![tactic(auto)]

ghost use Rattle.std.specs.Prelude.{◌<◌};
ghost use Rattle.std.specs.Io.{ReadsAtMost};

use dwords::{byte_at, number_at};
use std::fmt::Display;
use std::io;
use std::io::Read;
use std::rt::Files;

// The differences that a program has on its list. Each is counted at a place of its own, and prints as the words of its line.
// Each enum writes the same cast for place, since a cast needs the enum's own type, which no default method has.
pub trait Known: Copy + Display {
    fn place(self) -> usize
        ensures { result < 32 };
}

// Differences that also say which of them a record has.
pub trait Classed: Known {
    // The class of a record of the program's list.
    fn class_of(record: &[u8]) -> Class<Self>;
}

// A record's class.
#[derive(Clone, Copy)]
pub enum Class<D> {
    Same,
    Known(D),
    // A difference that is on no list.
    Unlisted,
    // Not what docs/SCOPE.md's rules in tools/oracle give.
    Wrong,
}

// Records by class; how many there were so far, and the number of the first that is on no list or wrong.
// known has a count for each place: counting needs no memory, and cannot fail.
#[derive(Clone, Copy)]
pub struct Totals {
    pub same: u64,
    pub known: [u64; 32],
    pub unlisted: u64,
    pub wrong: u64,
    pub seen: u64,
    pub first: Option<u64>,
}

impl Totals {
    pub fn new() -> Totals {
        Totals {
            same: 0,
            known: [0; 32],
            unlisted: 0,
            wrong: 0,
            seen: 0,
            first: None,
        }
    }

    pub fn add<D: Known>(&mut self, class: Class<D>) {
        self.seen = self.seen.wrapping_add(1);
        match class {
            Class::Same => self.same = self.same.wrapping_add(1),
            Class::Known(difference) => {
                let n = &mut self.known[difference.place()];
                *n = n.wrapping_add(1);
            }
            Class::Unlisted => {
                self.unlisted = self.unlisted.wrapping_add(1);
                self.first = self.first.or(Some(self.seen));
            }
            Class::Wrong => {
                self.wrong = self.wrong.wrapping_add(1);
                self.first = self.first.or(Some(self.seen));
            }
        }
    }

    // The lines of a list: its title, how many records agree and in what, and how many differ by each difference and by none.
    pub fn show<R: Print, D: Known>(
        &self,
        rt: &R,
        title: &str,
        agree: &str,
        differences: &[D],
    ) -> io::Result<()> {
        println!(rt; "{title}")?;
        line(rt, &agree, self.same)?;
        for difference in differences {
            line(rt, difference, self.known[difference.place()])?;
        }
        line(rt, &"differ and are on no list", self.unlisted)
    }

    pub fn show_first<R: Print>(&self, rt: &R) -> io::Result<()> {
        line(
            rt,
            &"number of the first of those, 0 for none",
            self.first.unwrap_or(0),
        )
    }
}

// A line with a count: the words go out, then the number.
pub fn line<R: Print, L: Display>(rt: &R, words: &L, n: u64) -> io::Result<()> {
    print!(rt; "{words}: ")?;
    println!(rt; "{n}")
}

// Opens a list, or says on standard error why it cannot. No files::open: that also reads, and refuses here what fails in count, with a status.
pub fn open<R: Files + Eprint>(rt: &R, path: &[u8]) -> Option<R::File> {
    files::told(rt, path, files::open_named(rt, path))
}

// The number of the two bytes from a place on, the lowest first.
pub fn number16_at(s: &[u8], at: u16) -> u16 {
    (number_at(s, at) % 0x1_0000) as u16
}

// The number of the eight bytes from a place on, the lowest first; all FF where they are not there.
pub fn number64_at(s: &[u8], at: usize) -> u64 {
    match s.get(at..).and_then(|rest| rest.first_chunk()) {
        Some(bytes) => u64::from_le_bytes(*bytes),
        None => u64::MAX,
    }
}

// The bytes of an SFDP area's table, from the first parameter header's pointer on.
pub fn table_of(area: &[u8]) -> &[u8] {
    let at = number_at(area, 12) % 0x100_0000;
    area.get(at as usize..).unwrap_or(&[])
}

// Whether an SFDP area's first parameter header gives a table of 9 to 15 dwords.
pub fn is_table_short(area: &[u8]) -> bool {
    (9..16).contains(&byte_at(area, 11))
}

// Whether a range at address 0 is one byte longer than so many address bytes reach.
pub fn is_one_past(address_bytes: u8, address: u32, length: u64) -> bool {
    let reach = match address_bytes {
        1 => 0x100,
        2 => 0x1_0000,
        3 => 0x100_0000,
        4 => 0x1_0000_0000,
        _ => return false,
    };
    address == 0 && length == reach + 1
}

// Reads until the buffer is full or the list ends, and answers how many bytes came.
pub fn fill<F: Read>(list: &mut F, buf: &mut [u8]) -> io::Result<usize>
    ensures { ReadsAtMost result buf.new }
{
    files::fill_or_cut(list, buf).map_err(|cut| cut.why)
}

// Reads a list to its end, in records as long as the buffer, and counts each by the class that a closure gives it.
// A proved loop has to end, and nothing says that a file does: at most 16,777,216 records are read.
pub fn count<D: Known, F: Read, C: Fn(&[u8]) -> Class<D>>(
    list: &mut F,
    record: &mut [u8],
    class_of: C,
) -> io::Result<Totals>
    requires { C.IsAlwaysCallable class_of }
{
    let mut totals = Totals::new();
    for _ in 0..16_777_216 {
        if fill(list, record)? < record.len() {
            break;
        }
        totals.add(class_of(record));
    }
    Ok(totals)
}

// The same by the class that the differences say themselves, which asks nothing of its caller. It has a loop of its own, and hands count no closure,
// so that the replay programs, which go through it, keep the code that they ran.
pub fn count_classed<D: Classed, F: Read>(list: &mut F, record: &mut [u8]) -> io::Result<Totals> {
    let mut totals = Totals::new();
    for _ in 0..16_777_216 {
        if fill(list, record)? < record.len() {
            break;
        }
        totals.add(D::class_of(record));
    }
    Ok(totals)
}

// Lists every differing run of two card dumps. The arguments are the names of the two files, which are read in parts of at most
// 4,096 bytes. The last line begins with equal, differ or error.
#![tactic(auto)]

mod show;

ghost use Rattle.std.specs.Prelude.{◌≡◌, ◌≤◌, length, take, IfErr};
ghost use Rattle.std.specs.Io.{ReadsAtMost};

use dump_runs::{Comparison, DumpError, Next};
use files::Broken;
use show::{Listing, Waiting};
use std::error::Error;
use std::fmt::{Display, Formatter};
use std::io::{Read, Write};
use std::rt::Files;
use std::{fmt, io};

// How many bytes of a dump are read at a time.
const PART: usize = 4096;

// Why a listing broke off.
#[derive(Debug, Drop)]
enum Trouble {
    FirstUnread,
    SecondUnread,
    Refused(DumpError),
    // It could not be written.
    Unwritten(io::Error),
}

// What happened, and what to do.
impl Display for Trouble {
    fn fmt<W: fmt::Write>(&self, f: &mut Formatter<W>) -> fmt::Result {
        f.write_str(match self {
            Trouble::FirstUnread => {
                "the first dump could not be read to its end, runs are missing; copy it anew and compare again"
            }
            Trouble::SecondUnread => {
                "the second dump could not be read to its end, runs are missing; copy it anew and compare again"
            }
            Trouble::Refused(DumpError::PastEnd) => {
                "a dump grew while it was read, runs are missing; compare copies of both"
            }
            Trouble::Refused(DumpError::TooLong) => {
                "a dump has 2^64 - 1 bytes or more, runs are missing; compare parts of it"
            }
            Trouble::Unwritten(_) => "the listing could not be written; see that there is room",
        })
    }
}

impl Error for Trouble {}

impl From<DumpError> for Trouble {
    fn from(why: DumpError) -> Trouble {
        Trouble::Refused(why)
    }
}

impl From<io::Error> for Trouble {
    fn from(why: io::Error) -> Trouble {
        Trouble::Unwritten(why)
    }
}

// An open file, its name, and whether it has ended.
#[derive(Drop)]
struct Dump<'a, F> {
    file: F,
    name: &'a [u8],
    ended: bool,
}

impl<'a, F: Read> Dump<'a, F> {
    fn new(file: F, name: &'a [u8]) -> Dump<'a, F> {
        Dump {
            file,
            name,
            ended: false,
        }
    }

    // Puts the next part at the start of the buffer; nothing once the file has ended. It has ended if the part is not full.
    fn next_part<R: Eprint>(&mut self, rt: &R, buf: &mut [u8]) -> Result<usize, Broken>
        ensures ok { ReadsAtMost result buf.new }
        ensures bound { IfErr result (λ e. e.len ≤ length buf.new) }
        ensures prefix { IfErr result (λ e. e.len ≡ length (take e.len buf.new)) }
    {
        if self.ended {
            return Ok(0);
        }
        let n = files::fill(rt, &mut self.file, self.name, buf)?;
        self.ended = n < buf.len();
        Ok(n)
    }
}

// Two dumps, how far they are compared, and what is listed of them.
#[derive(Drop)]
struct Comparing<'a, F, W> {
    first: Dump<'a, F>,
    second: Dump<'a, F>,
    comparison: Comparison,
    listing: Listing<W>,
}

impl<'a, F: Read, W: Write> Comparing<'a, F, W> {
    // Lists the runs that end in two parts.
    #[tactic(auto, using(dump_runs::proofs::Follows::further))]
    fn list(&mut self, a: &[u8], b: &[u8]) -> Result<(), Trouble> {
        let mut at = 0;
        loop {
            match self.comparison.next_run(a, b, at)? {
                Next::Found { run, next, then } => {
                    self.listing.run(run, "")?;
                    self.comparison = then;
                    at = next;
                }
                Next::More(then) => {
                    self.comparison = then;
                    return Ok(());
                }
            }
        }
    }

    // Takes the next parts of both files, also what came of one that could not be read to its end. Whether both have ended.
    fn turn<R: Eprint>(&mut self, rt: &R) -> Result<bool, Trouble> {
        let mut a = [0u8; PART];
        let mut b = [0u8; PART];
        let first = self.first.next_part(rt, &mut a);
        let second = self.second.next_part(rt, &mut b);
        let n = first.unwrap_or_else(|broken| broken.len);
        let m = second.unwrap_or_else(|broken| broken.len);
        self.list(&a[..n], &b[..m])?;
        first.map_err(|_| Trouble::FirstUnread)?;
        second.map_err(|_| Trouble::SecondUnread)?;
        Ok(self.first.ended && self.second.ended)
    }

    // Takes all parts: 2^52 of them would be 2^64 bytes.
    fn turns<R: Eprint>(&mut self, rt: &R) -> Result<(), Trouble> {
        for _ in 0..0x10_0000_0000_0000u64 {
            if self.turn(rt)? {
                return Ok(());
            }
        }
        Err(Trouble::Refused(DumpError::TooLong))
    }

    // Lists the run at the end of the common part, and what the longer dump has past the other.
    fn last_runs(&mut self) -> io::Result<()> {
        let c = self.comparison;
        if let Some(run) = c.open_run() {
            self.listing.run(run, "")?;
        }
        if let Some(run) = c.tail() {
            let note = if 0 < c.first {
                " only in the first dump"
            } else {
                " only in the second dump"
            };
            self.listing.run(run, note)?;
        }
        Ok(())
    }

    // Writes the whole listing.
    fn write<R: Eprint>(&mut self, rt: &R) -> io::Result<()> {
        match self.turns(rt) {
            Ok(()) => {
                self.last_runs()?;
                self.listing.verdict(self.comparison.start)?;
            }
            Err(Trouble::Unwritten(e)) => return Err(e),
            Err(why) => self.listing.error(&why)?,
        }
        self.listing.flush()
    }
}

// After a write that failed nothing is written any more: the lines that wait are dropped. The system's reason goes to standard error.
fn compare_open<R: Print + Eprint, F: Read + Drop>(
    rt: &R,
    first: Dump<'_, F>,
    second: Dump<'_, F>,
) {
    let mut space = [0u8; 65536];
    let mut comparing = Comparing {
        first,
        second,
        comparison: Comparison::new(),
        listing: Listing::new(Waiting::new(rt, &mut space)),
    };
    if let Err(e) = comparing.write(rt) {
        files::fail(rt, b"standard output", &e);
    }
}

fn compare_named<R: Files + Print + Eprint>(rt: &R, one: &[u8], two: &[u8]) -> io::Result<()> {
    let Some(first) = files::open(rt, one) else {
        return println!(rt;
            "error: the first dump cannot be read; see that the name is right, that it is a file and that you may read it"
        );
    };
    let Some(second) = files::open(rt, two) else {
        return println!(rt;
            "error: the second dump cannot be read; see that the name is right, that it is a file and that you may read it"
        );
    };
    compare_open(rt, Dump::new(first, one), Dump::new(second, two));
    Ok(())
}

fn help<R: Print>(rt: &R) -> io::Result<()> {
    println!(rt;
        "compare_dumps FIRST SECOND lists every differing run of two files: where it starts (hexadecimal), its length in bytes, and"
    )?;
    println!(rt;
        "the index of each 4,096-byte block that it meets. What only the longer file has is one last run."
    )?;
    println!(rt;
        "The last line begins with equal, differ or error; a listing without one is not whole."
    )?;
    println!(rt;
        "tools/compare-dumps does the same with an exit status: 0 equal, 1 differ, 2 error."
    )
}

fn main(rt: HostRuntime) -> io::Result<()> {
    let mut one = [0u8; 4096];
    let mut two = [0u8; 4096];
    let first = files::argument(&rt, 1, &mut one);
    let second = files::argument(&rt, 2, &mut two);
    match (first, second) {
        (Ok(name), _) if files::is_help(name) => help(&rt),
        (Ok(first), Ok(second)) if files::is_missing(&rt, 3) => compare_named(&rt, first, second),
        _ => println!(rt;
            "error: two names are needed: compare_dumps FIRST SECOND, the files of two dumps"
        ),
    }
}

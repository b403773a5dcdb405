// The differing runs of two dumps that come in parts, one run at a time, and the blocks that a run meets.
#![tactic(auto)]

ghost use Rattle.std.specs.Prelude.{◌≡◌, ◌+◌, ◌<◌, ◌^◌, length, drop};
ghost use Rattle.dump_runs.specs.Blocks.{blocks_of};
ghost use Rattle.dump_runs.specs.Steps.{most, begun, goes_on, too_long, scan_of, next_of, stretch_of, open_of, tail_of};

use std::error::Error;
use std::fmt;
use std::fmt::{Display, Formatter};

// A stretch of bytes.
#[derive(Clone, Copy, Debug, PartialEq, Eq)]
pub struct Run {
    pub start: u64,
    pub len: u64,
}

// The blocks from first on, so many of them.
#[derive(Clone, Copy, Debug, PartialEq, Eq)]
pub struct Blocks {
    pub first: u64,
    pub count: u64,
}

// How far two dumps are compared: the run that is open at the end of what both had, with the bytes that it has so far, and
// how many bytes the first and the second dump had past that.
// With len 0 no run is open, and start is no option beside it: it still says how far both were compared.
#[derive(Clone, Copy, Debug, PartialEq, Eq)]
pub struct Comparison {
    pub start: u64,
    pub len: u64,
    pub first: u64,
    pub second: u64,
}

// What comes next in two parts.
#[derive(Clone, Copy, Debug, PartialEq, Eq)]
pub enum Next {
    // A run has ended: ask again, in the same parts, from next on.
    Found {
        run: Run,
        next: usize,
        then: Comparison,
    },
    // The parts are done: hand in the ones that follow.
    More(Comparison),
}

// Why two parts are refused.
#[derive(Clone, Copy, Debug, PartialEq, Eq)]
pub enum DumpError {
    // A dump goes on that had ended before the other.
    PastEnd,
    // A dump has 2^64 - 1 bytes or more.
    TooLong,
}

impl Display for DumpError {
    fn fmt<W: fmt::Write>(&self, f: &mut Formatter<W>) -> fmt::Result {
        f.write_str(match self {
            DumpError::PastEnd => "a dump goes on that had ended before the other",
            DumpError::TooLong => "a dump has 2^64 - 1 bytes or more",
        })
    }
}

impl Error for DumpError {}

// The run of some bytes; nothing if there are none.
fn stretch(start: u64, len: u64) -> Option<Run>
    ensures { result ≡ stretch_of start len }
{
    (len != 0).then_some(Run { start, len })
}

// What a part has from an index on; nothing past its end.
fn rest(part: &[u8], from: usize) -> &[u8]
    ensures { result.now ≡ drop from part.now }
{
    part.get(from..).unwrap_or_default()
}

// Whether a dump that the other passed before has bytes again.
fn goes_on(passed: u64, rest: u64) -> bool
    ensures { result ≡ goes_on passed rest }
{
    0 < passed && 0 < rest
}

// Goes along what both parts have from an index on, to the first run that ends or to the end of the shorter one.
#[tactic(auto, using(crate::proofs::Scans::places))]
fn scan(c: Comparison, p: &[u8], q: &[u8], from: usize) -> Next
    requires short_first { c.start + c.len + c.first + length p.now < most }
    requires short_second { c.start + c.len + c.second + length q.now < most }
    requires in_part { from + length p.now < 2 ^ 64 }
    ensures { result ≡ scan_of c.first c.second c.start c.len from p.now q.now }
{
    let mut start = c.start;
    let mut len = c.len;
    // By an index in a range: a walk along both parts tests the length of each at every byte.
    for i in 0..p.len().min(q.len()) {
        if p[i] != q[i] {
            len += 1;
        } else if 0 < len {
            return Next::Found {
                run: Run { start, len },
                next: from + i + 1,
                then: Comparison {
                    start: start + len + 1,
                    len: 0,
                    ..c
                },
            };
        } else {
            start += 1;
        }
    }
    Next::More(Comparison {
        start,
        len,
        first: c.first + p.len().saturating_sub(q.len()) as u64,
        second: c.second + q.len().saturating_sub(p.len()) as u64,
    })
}

impl Comparison {
    // Nothing is compared yet.
    pub fn new() -> Comparison
        ensures { result ≡ begun }
    {
        Comparison {
            start: 0,
            len: 0,
            first: 0,
            second: 0,
        }
    }

    // Whether the longer dump has 2^64 - 1 bytes or more, with so many in the parts.
    fn is_long(self, p: u64, q: u64) -> bool
        ensures { result ≡ too_long self p q }
    {
        let past = self
            .first
            .saturating_add(p)
            .max(self.second.saturating_add(q));
        u64::MAX <= self.start.saturating_add(self.len).saturating_add(past)
    }

    // The next run that ends in the parts, from an index on. A host hands in the two dumps in parts, and asks from index 0 on for the
    // runs of each two. The parts may be of any lengths, but up to the end of the shorter dump two of them must have the same.
    #[tactic(auto, unfolding(crate::specs::Steps::next_of))]
    pub fn next_run(self, a: &[u8], b: &[u8], from: usize) -> Result<Next, DumpError>
        ensures { result ≡ next_of self a.now b.now from }
    {
        let p = rest(a, from);
        let q = rest(b, from);
        if goes_on(self.first, q.len() as u64) || goes_on(self.second, p.len() as u64) {
            return Err(DumpError::PastEnd);
        }
        if self.is_long(p.len() as u64, q.len() as u64) {
            return Err(DumpError::TooLong);
        }
        Ok(scan(self, p, q, from))
    }

    // When both dumps have ended: the run that is open.
    pub fn open_run(self) -> Option<Run>
        ensures { result ≡ open_of self }
    {
        stretch(self.start, self.len)
    }

    // When both dumps have ended: what the longer one has past the other.
    pub fn tail(self) -> Option<Run>
        ensures { result ≡ tail_of self }
    {
        stretch(
            self.start.saturating_add(self.len),
            self.first.saturating_add(self.second),
        )
    }
}

impl Run {
    // The 4,096-byte blocks that the run meets.
    pub fn blocks_met(self) -> Blocks
        ensures { result ≡ blocks_of self }
    {
        let first = self.start / 4096;
        if self.len == 0 {
            return Blocks { first, count: 0 };
        }
        let rest = self.len - 1;
        Blocks {
            first,
            count: rest / 4096 + (self.start % 4096 + rest % 4096) / 4096 + 1,
        }
    }
}

// Replays two lists against the proved reader of SFDP areas and compares every field.
// sfdp.bin: what the Rust made of 4,096 areas. Where it parts from docs/SCOPE.md the record is counted under its class.
// parts.bin: the areas of real parts and their decoded values; all must agree.
// docs/ORACLE.md has the records and the classes.
#![tactic(auto)]

mod fields;
mod judge;

use sfdp::{FlashParams, SFDPError};
use std::io;
use std::io::Read;
use tallies::Totals;

// How many prefixes give parameters, and how many are refused, by the refusal.
#[derive(Clone, Copy, Default)]
struct PrefixCounts {
    params: u64,
    no_sfdp: u64,
    header: u64,
    table: u64,
}

impl PrefixCounts {
    fn add(&mut self, read: Result<FlashParams, SFDPError>) {
        match read {
            Ok(_) => self.params = self.params.wrapping_add(1),
            Err(SFDPError::NoSFDP) => self.no_sfdp = self.no_sfdp.wrapping_add(1),
            Err(SFDPError::InvalidSFDPHeader) => self.header = self.header.wrapping_add(1),
            Err(SFDPError::InvalidSFDPParams) => self.table = self.table.wrapping_add(1),
        }
    }
}

// Every prefix of some bytes, the empty one and the whole among them: each is read once.
fn prefixes(s: &[u8]) -> PrefixCounts {
    let mut counts = PrefixCounts::default();
    for n in 0..=s.len() {
        if let Some(area) = s.get(..n) {
            counts.add(sfdp::read_area(area));
        }
    }
    counts
}

fn show_answers<R: Print>(rt: &R, totals: &Totals) -> io::Result<()> {
    totals.show(
        rt,
        "The Rust's answers, sfdp.bin",
        "agree in every field",
        &judge::DIFFERENCES,
    )?;
    totals.show_first(rt)
}

fn show_parts<R: Print>(rt: &R, totals: &Totals) -> io::Result<()> {
    println!(rt; "Real parts, parts.bin")?;
    tallies::line(rt, &"agree in every field", totals.same)?;
    tallies::line(rt, &"differ", totals.seen.wrapping_sub(totals.same))
}

fn show_prefixes<R: Print>(rt: &R, s: &[u8]) -> io::Result<()> {
    let counts = prefixes(s);
    println!(rt; "Every prefix of the first 1,024 bytes of parts.bin")?;
    tallies::line(rt, &"parameters", counts.params)?;
    for (refusal, n) in [
        (SFDPError::NoSFDP, counts.no_sfdp),
        (SFDPError::InvalidSFDPHeader, counts.header),
        (SFDPError::InvalidSFDPParams, counts.table),
    ] {
        print!(rt; "answer {}: ", refusal.number())?;
        println!(rt; "{n}")?;
    }
    Ok(())
}

fn replay<R: Print, F: Read>(
    rt: &R,
    answers: &mut F,
    parts: &mut F,
    again: &mut F,
) -> io::Result<()> {
    let mut record = [0u8; 1024];
    show_answers(
        rt,
        &tallies::count_classed::<judge::Difference, F>(answers, &mut record[..256])?,
    )?;
    show_parts(
        rt,
        &tallies::count_classed::<judge::Difference, F>(parts, &mut record)?,
    )?;
    let n = tallies::fill(again, &mut record)?;
    show_prefixes(rt, &record[..n])?;
    let answer = sfdp::answer_number(sfdp::read_area(&[0; 65536]));
    tallies::line(rt, &"65,536 zero bytes, answer", answer as u64)
}

fn main(rt: HostRuntime) -> io::Result<()> {
    let answers = tallies::open(&rt, b"sfdp.bin");
    let parts = tallies::open(&rt, b"parts.bin");
    let again = tallies::open(&rt, b"parts.bin");
    match (answers, parts, again) {
        (Some(mut answers), Some(mut parts), Some(mut again)) => {
            replay(&rt, &mut answers, &mut parts, &mut again)
        }
        _ => Ok(()),
    }
}

// Replays runs.bin, 4,096 runs of the Rust's commands, against the proved driver: the same settings, arguments and replies, and
// the answer, the number of transactions and polls, the digest of all that was sent, the bytes read and the settings compared.
// Ours is also held to docs/SCOPE.md's rules as tools/oracle/run_rules.py has them, for all records.
// Where the Rust parts from docs/SCOPE.md the record is counted under its class. docs/ORACLE.md has the records and the classes.
#![tactic(auto)]

mod classes;
mod digest;
mod outcome;
mod play;
mod record;
mod wire;

use crate::classes::Difference;
use std::io;
use std::io::Read;
use tallies::Totals;

fn totals<F: Read>(list: &mut F) -> io::Result<Totals> {
    tallies::count_classed::<Difference, F>(list, &mut [0; 256])
}

fn show<R: Print>(rt: &R, totals: &Totals) -> io::Result<()> {
    totals.show(
        rt,
        "The Rust's commands, runs.bin",
        "agree in answer, transactions, polls, bytes and settings",
        &classes::DIFFERENCES,
    )?;
    tallies::line(
        rt,
        &"ours is not what docs/SCOPE.md's rules give",
        totals.wrong,
    )?;
    totals.show_first(rt)
}

fn main(rt: HostRuntime) -> io::Result<()> {
    match tallies::open(&rt, b"runs.bin") {
        Some(mut list) => show(&rt, &totals(&mut list)?),
        None => Ok(()),
    }
}

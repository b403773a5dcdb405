// Replays two lists of the Rust's answers against the proved range check and the proved plans.
// ranges.bin: 4,096 ranges. plans.bin: 4,096 plans. Where the Rust parts from docs/SCOPE.md the record is counted under its class.
// docs/ORACLE.md has the records and the classes.
#![tactic(auto)]

mod plans;
mod ranges;

use std::io;
use std::io::Read;

fn replay_ranges<R: Print, F: Read>(rt: &R, list: &mut F) -> io::Result<()> {
    let totals = tallies::count_classed::<ranges::Difference, F>(list, &mut [0; 32])?;
    totals.show(
        rt,
        "The Rust's answers, ranges.bin",
        "agree",
        &ranges::DIFFERENCES,
    )?;
    totals.show_first(rt)
}

fn replay_plans<R: Print, F: Read>(rt: &R, list: &mut F) -> io::Result<()> {
    let totals = tallies::count_classed::<plans::Difference, F>(list, &mut [0; 256])?;
    totals.show(
        rt,
        "The Rust's answers, plans.bin",
        "agree in every entry",
        &plans::DIFFERENCES,
    )?;
    totals.show_first(rt)
}

fn main(rt: HostRuntime) -> io::Result<()> {
    let ranges = tallies::open(&rt, b"ranges.bin");
    let plans = tallies::open(&rt, b"plans.bin");
    match (ranges, plans) {
        (Some(mut ranges), Some(mut plans)) => {
            replay_ranges(&rt, &mut ranges)?;
            replay_plans(&rt, &mut plans)
        }
        _ => Ok(()),
    }
}

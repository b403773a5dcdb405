// Runs the driver on the modelled part: many random sequences of commands, setters and busy times on parts of several shapes.
// After each command the part's memory is compared with a replay beside it, and so are the bytes of each read. Then the same with
// one premise broken at a time, to see that the conclusion fails without it.
#![tactic(auto)]

mod calls;
mod image;
mod runs;
mod sequence;
mod shapes;

use part_host::source::Source;
use runs::Totals;
use shapes::Flaw;
use std::io;

fn many(count: u64, flaw: Option<Flaw>) -> Totals {
    let mut seeds = Source { state: 0x5EED };
    let mut totals = Totals::default();
    for _ in 0..count {
        totals.add_sequence(sequence::play(seeds.draw(), flaw));
    }
    totals
}

// A line in three pieces.
fn show_fitting<R: Print>(rt: &R, t: &Totals) -> io::Result<()> {
    let (sequences, setters, commands) = (t.sequences, t.setters, t.commands);
    let (accepted, refused) = (t.accepted, t.refused);
    let (transactions, mismatches) = (t.transactions, t.mismatches);
    print!(rt; "fitting parts: sequences {sequences}, setters {setters}, commands {commands}")?;
    print!(rt; ", accepted {accepted}, refused {refused}")?;
    println!(rt; ", transactions {transactions}, mismatches {mismatches}")
}

fn main(rt: HostRuntime) -> io::Result<()> {
    show_fitting(&rt, &many(512, None))?;
    for flaw in [
        Flaw::Poll,
        Flaw::Address,
        Flaw::Page,
        Flaw::Slow,
        Flaw::Busy,
        Flaw::Size,
    ] {
        let t = many(64, Some(flaw));
        let (broken, all) = (t.broken, t.sequences);
        println!(rt; "{flaw}: the conclusion fails in {broken} of {all} sequences")?;
    }
    Ok(())
}

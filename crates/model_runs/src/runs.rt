// A run: the part's state, the driver, and what was counted.
use flash::Session;
use nor_part::State;
use part_host::Play;
use part_host::source::Source;

// broken: sequences with a mismatch. mismatches: commands after which something is not as replayed.
#[derive(Clone, Copy, Default)]
pub struct Totals {
    pub sequences: u64,
    pub broken: u64,
    pub setters: u64,
    pub commands: u64,
    pub accepted: u64,
    pub refused: u64,
    pub transactions: u64,
    pub mismatches: u64,
}

#[derive(Clone, Copy)]
pub struct Run {
    pub state: State,
    pub session: Session,
    pub source: Source,
    pub totals: Totals,
}

// What a command came to: whether it was refused, and whether all is as replayed.
#[derive(Clone, Copy)]
pub struct Verdict {
    pub refused: bool,
    pub good: bool,
}

fn add(count: &mut u64, n: u64) {
    *count = count.wrapping_add(n);
}

impl Totals {
    // With those of a sequence.
    pub fn add_sequence(&mut self, t: Totals) {
        add(&mut self.sequences, 1);
        add(&mut self.broken, (0 < t.mismatches) as u64);
        add(&mut self.setters, t.setters);
        add(&mut self.commands, t.commands);
        add(&mut self.accepted, t.accepted);
        add(&mut self.refused, t.refused);
        add(&mut self.transactions, t.transactions);
        add(&mut self.mismatches, t.mismatches);
    }

    // With a command that took so many transactions.
    pub fn add_command(&mut self, transactions: u64, v: Verdict) {
        add(&mut self.commands, 1);
        add(&mut self.accepted, !v.refused as u64);
        add(&mut self.refused, v.refused as u64);
        add(&mut self.transactions, transactions);
        add(&mut self.mismatches, !v.good as u64);
    }
}

impl Run {
    // A sequence's start: the part's latch is clear; a fresh driver that polls at most 10 times.
    pub fn begun(busy: u64, source: Source) -> Run {
        Run {
            state: State { latch: false, busy },
            session: Session::new().set_poll_limit(10).session,
            source,
            totals: Totals::default(),
        }
    }

    // After the setters before a command.
    pub fn set(&mut self, session: Session, setters: u64) {
        self.session = session;
        add(&mut self.totals.setters, setters);
    }

    // After a command.
    pub fn played(&mut self, play: Play, v: Verdict) {
        self.state = play.state;
        self.session = play.stepped.session;
        self.source = play.source;
        self.totals.add_command(play.count, v);
    }
}

// The driver: a session that hands out one transaction at a time and never waits by itself. Start a command, carry out the
// transaction, give its reply to the step, until there is an answer. The session goes in by value and comes back by value; it
// never holds a list.
#![tactic(auto)]

mod polls;
mod reads;
mod starts;
mod step;

ghost use Rattle.std.specs.Prelude.{◌≡◌, not, ◌&&◌, ◌||◌};
ghost use Rattle.erase_plan.specs.Types.{present};
ghost use Rattle.flash.specs.Waits.{types_of, entry_for, erase_tx, page_pause, flagged, poll_tx, waits_on, event_of, told, in_phase};

use commands::Answer;
use erase_plan::{EraseTypes, NextEntry};
use phases::{EraseCommand, Phase, Transaction, bare_tx};
use settings::Settings;
use sfdp::FlashParams;

// known: whether there are parameters. polls: those issued in this command.
#[derive(Clone, Copy)]
pub struct Session {
    pub settings: Settings,
    pub known: bool,
    pub params: FlashParams,
    pub phase: Phase,
    pub polls: u64,
}

// What a start or a step gives the host: a transaction to carry out, or the command's answer with its poll count.
#[derive(Clone, Copy)]
pub enum Event {
    Send(Transaction),
    Answered(Answer, u64),
}

#[derive(Clone, Copy)]
pub struct Stepped {
    pub session: Session,
    pub event: Event,
}

// What a start that is not refused comes to, apart from its session: Done at once; or the first phase, with the place in the room where
// the data go.
#[derive(Clone, Copy)]
pub enum First {
    Over,
    Goes(u64, Phase),
}

// ---- transactions

// The erase types of a session.
fn types_of(s: Session) -> EraseTypes
    ensures { types_of s ≡ present result }
{
    plans::erase_types(s.settings, s.known, s.params)
}

// The plan's entry at a position of a range.
#[tactic(auto, unfolding(crate::specs::Waits::entry_for))]
pub fn entry_for(s: Session, at: u32, last: u32) -> Option<NextEntry>
    ensures { result ≡ entry_for s at last }
{
    erase_plan::next_entry(types_of(s), at, last)
}

#[tactic(auto, unfolding(crate::specs::Waits::erase_tx))]
fn erase_tx(s: Session, c: EraseCommand) -> Transaction
    ensures { result ≡ erase_tx s c }
{
    let bytes = s.settings.address_bytes;
    match c {
        EraseCommand::Chip => bare_tx(0xC7, 0),
        EraseCommand::Sectors(at, last) => phases::block_tx(bytes, entry_for(s, at, last)),
        EraseCommand::Program(job, at) => phases::block_tx(bytes, entry_for(s, at, job.last)),
    }
}

#[tactic(auto, using(std::proofs::lemmas::Bool::Decides::nat_tests), unfolding(crate::specs::Waits::page_pause))]
fn page_pause(s: Session) -> u32
    ensures { result ≡ page_pause s }
{
    let typical = s.params.timing.page_prog_time_typ;
    if s.known && s.params.jesd216a && 1000 < typical {
        typical / 2
    } else {
        0
    }
}

// Whether polls go by the flag status register.
#[tactic(auto, unfolding(crate::specs::Waits::flagged))]
pub fn is_flagged(s: Session) -> bool
    ensures { result ≡ flagged s }
{
    s.known && s.params.busy_poll_flag
}

// Whether a reset is by 66, 99: without parameters, and for a flash of the first revision too.
pub fn resets_by_66(s: Session) -> bool
    ensures { result ≡ (not (s.known && s.params.jesd216a) || s.params.reset_inst_66_99) }
{
    !(s.known && s.params.jesd216a) || s.params.reset_inst_66_99
}

#[tactic(auto, unfolding(crate::specs::Waits::poll_tx))]
fn poll_tx(s: Session) -> Transaction
    ensures { result ≡ poll_tx s }
{
    let opcode = if is_flagged(s) { 0x70 } else { 0x05 };
    Transaction {
        poll: true,
        ..bare_tx(opcode, 1)
    }
}

// The transaction that a phase waits on.
#[tactic(auto, unfolding(crate::specs::Waits::waits_on))]
pub fn waits_on(s: Session, p: Phase) -> Transaction
    ensures { result ≡ waits_on s p }
{
    match p {
        Phase::Reading { command } => phases::read_tx(s.settings, command),
        Phase::Erasing {
            command,
            enabled: true,
        } => erase_tx(s, command),
        Phase::Writing {
            command,
            enabled: true,
        } => phases::write_tx(s.settings, page_pause(s), command),
        Phase::Erasing { enabled: false, .. } | Phase::Writing { enabled: false, .. } => {
            bare_tx(0x06, 0)
        }
        Phase::Polling { .. } => poll_tx(s),
        Phase::Verifying { command } => phases::verify_tx(s.settings.address_bytes, command),
        Phase::Resetting { command } => phases::reset_tx(command),
        Phase::Ended { .. } => bare_tx(0, 0),
    }
}

// ---- what the host is told

// Of a session in a phase, with so many polls.
// Never inlined: so that no session is copied for the sake of its event.
#[tactic(auto, using(crate::proofs::Phases::event_runs), unfolding(crate::specs::Waits::event_of))]
#[inline(never)]
pub fn event_at(s: Session, p: Phase, polls: u64) -> Event
    ensures { result ≡ event_of (in_phase s p polls) p }
{
    match p {
        Phase::Ended { answer, .. } => Event::Answered(answer, polls),
        _ => Event::Send(waits_on(s, p)),
    }
}

impl Session {
    // The session with its answer, or with the transaction that it waits on.
    #[tactic(auto, unfolding(crate::specs::Waits::told))]
    #[inline(always)]
    pub fn tell(self) -> Stepped
        ensures { result ≡ told self }
    {
        Stepped {
            session: self,
            event: event_at(self, self.phase, self.polls),
        }
    }

    // The session in another phase, with so many polls.
    pub fn goes(self, p: Phase, polls: u64) -> Session
        ensures { result ≡ in_phase self p polls }
    {
        Session {
            phase: p,
            polls,
            ..self
        }
    }
}

// What comes when an operation was sent, polled and done.
ghost use Rattle.std.specs.Prelude.{◌≡◌};
ghost use Rattle.flash.specs.Steps.{after_erase, after_polls, poll_on};

use crate::Session;
use commands::Answer;
use dwords::byte_at;
use phases::{EraseCommand, Phase, PollCommand, ends};

// An erase is done: the plan's next entry, or what follows the plan.
#[tactic(auto, unfolding(crate::specs::Steps::after_erase, phases::specs::Moves::next_erase))]
fn after_erase(s: Session, c: EraseCommand, work: &[u8]) -> Phase
    ensures { result ≡ after_erase s c work.now }
{
    match c {
        EraseCommand::Chip => phases::polls::done(),
        EraseCommand::Sectors(at, last) => {
            phases::polls::after_sectors(crate::entry_for(s, at, last), last)
        }
        EraseCommand::Program(job, at) => {
            phases::polls::after_program(crate::entry_for(s, at, job.last), job, work)
        }
    }
}

#[tactic(auto, unfolding(crate::specs::Steps::after_polls))]
fn after_polls(s: Session, c: PollCommand, work: &[u8]) -> Phase
    ensures { result ≡ after_polls s c work.now }
{
    match c {
        PollCommand::Once => ends::over(Answer::DoneBool(false)),
        PollCommand::Erase(e) => after_erase(s, e, work),
        PollCommand::Write(w) => phases::polls::after_write(s.settings.page(), w),
    }
}

// A poll's reply.
#[tactic(auto, unfolding(crate::specs::Steps::poll_on))]
pub fn poll_on(s: Session, c: PollCommand, left: u16, reply: &[u8], work: &[u8]) -> Phase
    ensures { result ≡ poll_on s c left reply.now work.now }
{
    if phases::polls::is_ready(crate::is_flagged(s), byte_at(reply, 0)) {
        after_polls(s, c, work)
    } else {
        phases::polls::still_busy(c, left)
    }
}

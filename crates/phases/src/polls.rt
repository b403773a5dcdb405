// What comes when an operation was sent, polled and done, as far as no plan is needed.
ghost use Rattle.std.specs.Prelude.{◌≡◌, ◌+◌, ◌-◌, false};
ghost use Rattle.commands.specs.Transactions.{ready};
ghost use Rattle.phases.specs.Moves.{to_polls, last_written, next_erase, to_verify, after_write, still_busy, reset_on};

use crate::{
    Command, EraseCommand, Job, Phase, PollCommand, ResetCommand, VerifyCommand, WriteCommand, ends,
};
use commands::Answer;
use erase_plan::NextEntry;

// On to the polls, or answer 9 at once where the limit is 0.
#[tactic(auto, using(std::proofs::lemmas::Bool::Decides::nat_tests), unfolding(crate::specs::Moves::to_polls))]
pub fn to_polls(limit: u16, c: PollCommand) -> Phase
    ensures { result ≡ to_polls limit c }
{
    if limit == 0 {
        Phase::Ended {
            command: ends::poll_ends(c),
            answer: Answer::Busy,
        }
    } else {
        Phase::Polling {
            command: c,
            left: limit - 1,
        }
    }
}

// The first byte of the room after a program's data.
pub fn data_end(job: Job) -> u64
    ensures { result ≡ job.last + 1 - job.base }
{
    (job.last as u64 + 1).saturating_sub(job.base as u64)
}

// The last byte of the room that a program writes.
#[tactic(auto, unfolding(crate::specs::Moves::last_written))]
fn last_written(job: Job, work: &[u8]) -> u32
    ensures { result ≡ last_written job work.now }
{
    let past = job.top.saturating_sub(job.last) as u64;
    if room::is_blank(work, data_end(job), past) {
        job.last.saturating_sub(job.base)
    } else {
        job.top.saturating_sub(job.base)
    }
}

// Apart from `writing`: each is one variant of Phase with its own command type.
fn erasing(command: EraseCommand) -> Phase
    ensures { result ≡ Phase.Erasing command false }
{
    Phase::Erasing {
        command,
        enabled: false,
    }
}

fn writing(command: WriteCommand) -> Phase
    ensures { result ≡ Phase.Writing command false }
{
    Phase::Writing {
        command,
        enabled: false,
    }
}

pub fn done() -> Phase
    ensures { result ≡ Phase.Ended Command.Other Answer.Done }
{
    ends::over(Answer::Done)
}

// The plan of erase_sectors goes on after an entry, whatever is in the room.
#[tactic(auto, using(std::proofs::lemmas::Bool::Decides::nat_tests), unfolding(crate::specs::Moves::next_erase))]
pub fn after_sectors(next: Option<NextEntry>, last: u32) -> Phase
    ensures { result ≡ next_erase next last (λ p. Phase.Erasing (EraseCommand.Sectors p last) false) (Phase.Ended Command.Other Answer.Done) }
{
    match next {
        Some(NextEntry { stop, .. }) if stop < last => {
            erasing(EraseCommand::Sectors(stop + 1, last))
        }
        _ => done(),
    }
}

// The plan of a program goes on after an entry; after the plan the writes begin. Apart from `after_sectors`: both arms are
// others, and the one guard that is the same would come back as an Option to match again.
#[tactic(auto, using(std::proofs::lemmas::Bool::Decides::nat_tests), unfolding(crate::specs::Moves::next_erase))]
pub fn after_program(next: Option<NextEntry>, job: Job, work: &[u8]) -> Phase
    ensures { result ≡ next_erase next job.last (λ p. Phase.Erasing (EraseCommand.Program job p) false) (Phase.Writing (WriteCommand.Program job (last_written job work.now) 0) false) }
{
    match next {
        Some(NextEntry { stop, .. }) if stop < job.last => {
            erasing(EraseCommand::Program(job, stop + 1))
        }
        _ => writing(WriteCommand::Program(job, last_written(job, work), 0)),
    }
}

// All is written: the readback, or the end.
#[tactic(auto, unfolding(crate::specs::Moves::to_verify))]
fn to_verify(job: Job, to: u32) -> Phase
    ensures { result ≡ to_verify job to }
{
    if job.verified {
        Phase::Verifying {
            command: VerifyCommand::Compare(job, to),
        }
    } else {
        Phase::Ended {
            command: Command::Program(job, true),
            answer: Answer::Done,
        }
    }
}

// A page write is done: the next part, or what follows.
#[tactic(auto, using(std::proofs::lemmas::Bool::Decides::nat_tests), unfolding(crate::specs::Moves::after_write, crate::specs::Moves::next_write))]
pub fn after_write(page: u32, c: WriteCommand) -> Phase
    ensures { result ≡ after_write page c }
{
    match c {
        WriteCommand::Program(job, to, off) => {
            let stop = crate::part_last(page, job.base, off, to);
            if stop < to {
                writing(WriteCommand::Program(job, to, stop + 1))
            } else {
                to_verify(job, to)
            }
        }
        WriteCommand::Data(a, to, off) => {
            let stop = crate::part_last(page, a, off, to);
            if stop < to {
                writing(WriteCommand::Data(a, to, stop + 1))
            } else {
                done()
            }
        }
    }
}

// The part is still busy: another poll, or answer 9 after the last one. is_busy only tells.
#[tactic(auto, unfolding(crate::specs::Moves::still_busy, crate::specs::Moves::to_polls, crate::specs::Moves::poll_ends))]
pub fn still_busy(c: PollCommand, left: u16) -> Phase
    ensures { result ≡ still_busy c left }
{
    match c {
        PollCommand::Once => ends::over(Answer::DoneBool(true)),
        PollCommand::Erase(_) | PollCommand::Write(_) => to_polls(left, c),
    }
}

#[tactic(auto, unfolding(commands::specs::Transactions::ready))]
pub fn is_ready(flag: bool, status: u8) -> bool
    ensures { result ≡ ready flag status }
{
    if flag {
        status / 128 % 2 == 1
    } else {
        status % 2 != 1
    }
}

#[tactic(auto, unfolding(crate::specs::Moves::reset_on))]
pub fn reset_on(c: ResetCommand) -> Phase
    ensures { result ≡ reset_on c }
{
    match c {
        ResetCommand::Enable => Phase::Resetting {
            command: ResetCommand::Reset,
        },
        ResetCommand::Reset | ResetCommand::F0 => done(),
    }
}

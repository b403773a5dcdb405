// What a full reply leads to, and what it leaves in the room.
ghost use Rattle.std.specs.Prelude.{◌≡◌, ◌+◌, ◌%◌, ◌^◌, true, not, ◌&&◌, if◌then◌else◌, ◌==◌};
ghost use Rattle.phases.specs.Waits.{is_poll, reply_of};
ghost use Rattle.phases.specs.Moves.{to_polls, verify_on, of_table, read_room, room_after};

use crate::{
    Command, EraseCommand, Job, Mismatch, Phase, PollCommand, ReadCommand, VerifyCommand,
    WriteCommand, polls,
};
use commands::Answer;
use settings::Settings;

// What was read back against the room's bytes up to the byte `to`.
#[tactic(auto, using(crate::proofs::Compare::compares), unfolding(crate::specs::Moves::verify_on, crate::specs::Moves::judged, crate::proofs::Compare::mismatch_of))]
fn compared(job: Job, to: u32, reply: &[u8], work: &[u8]) -> Phase
    ensures { result ≡ verify_on (VerifyCommand.Compare job to) reply.now work.now }
{
    match room::first_differs(work, to as u64 + 1, reply) {
        None => Phase::Ended {
            command: Command::Program(job, true),
            answer: Answer::Done,
        },
        Some(found) => Phase::Verifying {
            command: VerifyCommand::Tell(
                job,
                Mismatch {
                    address: job.base.wrapping_add((found.at % 0x1_0000_0000) as u32),
                    wrote: found.has,
                    read: found.read,
                },
            ),
        },
    }
}

#[tactic(auto, unfolding(crate::specs::Moves::verify_on))]
pub fn verify_on(c: VerifyCommand, reply: &[u8], work: &[u8]) -> Phase
    ensures { result ≡ verify_on c reply.now work.now }
{
    match c {
        VerifyCommand::Compare(job, to) => compared(job, to, reply, work),
        VerifyCommand::Tell(job, m) => Phase::Ended {
            command: Command::Program(job, true),
            answer: Answer::ReadbackError(m.address, m.wrote, m.read),
        },
    }
}

// An erase, or its 06, was answered. One function with write_on would take two constructors, and be no shorter.
pub fn erase_on(limit: u16, c: EraseCommand, enabled: bool) -> Phase
    ensures { result ≡ (if enabled then to_polls limit (PollCommand.Erase c) else Phase.Erasing c true) }
{
    if enabled {
        polls::to_polls(limit, PollCommand::Erase(c))
    } else {
        Phase::Erasing {
            command: c,
            enabled: true,
        }
    }
}

// A page write, or its 06, was answered.
pub fn write_on(limit: u16, c: WriteCommand, enabled: bool) -> Phase
    ensures { result ≡ (if enabled then to_polls limit (PollCommand.Write c) else Phase.Writing c true) }
{
    if enabled {
        polls::to_polls(limit, PollCommand::Write(c))
    } else {
        Phase::Writing {
            command: c,
            enabled: true,
        }
    }
}

// Whether a table is read.
#[tactic(auto, unfolding(crate::specs::Moves::of_table, crate::specs::Moves::is_table))]
pub fn of_table(p: Phase) -> bool
    ensures { result ≡ of_table p }
{
    matches!(
        p,
        Phase::Reading {
            command: ReadCommand::Table(..),
        }
    )
}

// A read's reply is laid over the room.
#[tactic(auto, unfolding(crate::specs::Moves::read_room))]
fn keep_read(c: ReadCommand, reply: &[u8], work: &mut [u8])
    ensures { work.new ≡ read_room c reply.now work.old }
{
    match c {
        ReadCommand::Read(..)
        | ReadCommand::Header
        | ReadCommand::Headers(_)
        | ReadCommand::Table(..)
        | ReadCommand::Before(_) => room::lay(work, 0, reply),
        ReadCommand::After(job) => room::lay(work, polls::data_end(job), reply),
        ReadCommand::Id | ReadCommand::IdAgain | ReadCommand::Protected => {}
    }
}

#[tactic(auto, unfolding(crate::specs::Moves::room_after))]
pub fn keep(p: Phase, reply: &[u8], work: &mut [u8])
    ensures { work.new ≡ room_after p reply.now work.old }
{
    if let Phase::Reading { command } = p {
        keep_read(command, reply, work);
    }
}

// The polls with the transaction that was waited on.
pub fn count(polls: u64, p: Phase) -> u64
    ensures { result ≡ (polls + (if is_poll p then 1 else 0)) % 2 ^ 64 }
{
    polls.wrapping_add(u64::from(crate::is_poll(p)))
}

// Whether a reply of so many bytes is full: no failure is reported, and it is as long as was asked for.
pub fn is_full(failed: bool, len: u64, p: Phase) -> bool
    ensures { (x : Settings) → result ≡ (not failed && len == reply_of x p) }
{
    !failed && len == crate::reply_of(p)
}

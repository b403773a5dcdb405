// Which command a phase belongs to, for its end. A program keeps its job, and whether its reads had all come back.
ghost use Rattle.std.specs.Prelude.{◌≡◌};
ghost use Rattle.phases.specs.Moves.{read_ends, erase_ends, write_ends, poll_ends, verify_ends, ends_as, is_ended};

use crate::{Command, EraseCommand, Phase, PollCommand, ReadCommand, VerifyCommand, WriteCommand};
use commands::Answer;

// A phase that ends another command than a program.
pub fn over(answer: Answer) -> Phase
    ensures { result ≡ Phase.Ended Command.Other answer }
{
    Phase::Ended {
        command: Command::Other,
        answer,
    }
}

#[tactic(auto, unfolding(crate::specs::Moves::read_ends))]
pub fn read_ends(c: ReadCommand) -> Command
    ensures { result ≡ read_ends c }
{
    match c {
        ReadCommand::Before(job) | ReadCommand::After(job) => Command::Program(job, false),
        _ => Command::Other,
    }
}

#[tactic(auto, unfolding(crate::specs::Moves::erase_ends))]
pub fn erase_ends(c: EraseCommand) -> Command
    ensures { result ≡ erase_ends c }
{
    match c {
        EraseCommand::Program(job, _) => Command::Program(job, true),
        EraseCommand::Chip | EraseCommand::Sectors(..) => Command::Other,
    }
}

#[tactic(auto, unfolding(crate::specs::Moves::write_ends))]
pub fn write_ends(c: WriteCommand) -> Command
    ensures { result ≡ write_ends c }
{
    match c {
        WriteCommand::Program(job, ..) => Command::Program(job, true),
        WriteCommand::Data(..) => Command::Other,
    }
}

#[tactic(auto, unfolding(crate::specs::Moves::poll_ends))]
pub fn poll_ends(c: PollCommand) -> Command
    ensures { result ≡ poll_ends c }
{
    match c {
        PollCommand::Once => Command::Other,
        PollCommand::Erase(e) => erase_ends(e),
        PollCommand::Write(w) => write_ends(w),
    }
}

#[tactic(auto, unfolding(crate::specs::Moves::verify_ends))]
pub fn verify_ends(c: VerifyCommand) -> Command
    ensures { result ≡ verify_ends c }
{
    match c {
        VerifyCommand::Compare(job, _) | VerifyCommand::Tell(job, _) => Command::Program(job, true),
    }
}

#[tactic(auto, unfolding(crate::specs::Moves::ends_as))]
pub fn ends_as(p: Phase) -> Command
    ensures { result ≡ ends_as p }
{
    match p {
        Phase::Reading { command } => read_ends(command),
        Phase::Erasing { command, .. } => erase_ends(command),
        Phase::Writing { command, .. } => write_ends(command),
        Phase::Polling { command, .. } => poll_ends(command),
        Phase::Verifying { command } => verify_ends(command),
        Phase::Resetting { .. } => Command::Other,
        Phase::Ended { command, .. } => command,
    }
}

// Whether a session has its answer, so that no command runs.
#[tactic(auto, unfolding(crate::specs::Moves::is_ended))]
pub fn is_ended(p: Phase) -> bool
    ensures { result ≡ is_ended p }
{
    matches!(p, Phase::Ended { .. })
}

// The polls so far: at most the limit for each operation that is behind.
ghost use Rattle.std.specs.Prelude.{◌≡◌, ◌+◌, ◌-◌};
ghost use Rattle.rule.specs.Rule.{erases_behind, writes_behind, verifies_behind, polls_of, polls_done, polls_left, wait_rule, polls_rule};

use phases::{EraseCommand, Job, Phase, PollCommand, VerifyCommand, WriteCommand};

// How many erases are behind, at most: each covers an address of the range or more.
#[tactic(auto, unfolding(crate::specs::Rule::erases_behind))]
fn erases_behind(c: EraseCommand) -> u64
    ensures { result ≡ erases_behind c }
{
    match c {
        EraseCommand::Chip => 0,
        EraseCommand::Sectors(at, _) => at as u64,
        EraseCommand::Program(job, at) => (at as u64).saturating_sub(job.from as u64),
    }
}

// The bytes of a program's data.
fn data_len(job: Job) -> u64
    ensures { result ≡ job.last + 1 - job.from }
{
    (job.last as u64 + 1).saturating_sub(job.from as u64)
}

// How many operations of a program or a program_data are behind: each part covers a byte or more.
#[tactic(auto, unfolding(crate::specs::Rule::writes_behind))]
fn writes_behind(c: WriteCommand) -> u64
    ensures { result ≡ writes_behind c }
{
    match c {
        WriteCommand::Program(job, _, off) => data_len(job) + off as u64,
        WriteCommand::Data(_, _, off) => off as u64,
    }
}

// All of a program's operations.
#[tactic(auto, unfolding(crate::specs::Rule::verifies_behind))]
fn verifies_behind(c: VerifyCommand) -> u64
    ensures { result ≡ verifies_behind c }
{
    match c {
        VerifyCommand::Compare(job, _) | VerifyCommand::Tell(job, _) => {
            data_len(job) + phases::span_of(job)
        }
    }
}

// The polls of so many operations, of which there are never more than 2^33.
#[tactic(auto, unfolding(crate::specs::Rule::polls_of))]
fn polls_of(limit: u16, behind: u64) -> u64
    ensures { result ≡ polls_of limit behind }
{
    behind.min(8_589_934_592) * limit as u64
}

#[tactic(auto, unfolding(crate::specs::Rule::polls_done))]
fn polls_done(polls: u64, limit: u16, behind: u64) -> bool
    ensures { result ≡ polls_done polls limit behind }
{
    polls <= polls_of(limit, behind)
}

// left: how many polls may follow the one that is waited on.
#[tactic(auto, unfolding(crate::specs::Rule::polls_left, crate::specs::Rule::polls_of))]
fn polls_left(polls: u64, limit: u16, behind: u64, left: u16) -> bool
    ensures { result ≡ polls_left polls limit behind left }
{
    polls < polls_of(limit, behind) + limit.saturating_sub(left) as u64
}

#[tactic(auto, unfolding(crate::specs::Rule::wait_rule))]
fn wait_holds(polls: u64, limit: u16, c: PollCommand, left: u16) -> bool
    ensures { result ≡ wait_rule polls limit c left }
{
    match c {
        PollCommand::Once => polls == 0,
        PollCommand::Erase(e) => polls_left(polls, limit, erases_behind(e), left),
        PollCommand::Write(w) => polls_left(polls, limit, writes_behind(w), left),
    }
}

// At most the limit for each operation that is behind, and for the one that is waited on those that may have come.
#[tactic(auto, unfolding(crate::specs::Rule::polls_rule))]
pub fn polls_hold(polls: u64, limit: u16, p: Phase) -> bool
    ensures { result ≡ polls_rule polls limit p }
{
    match p {
        Phase::Reading { .. } | Phase::Resetting { .. } => polls == 0,
        Phase::Erasing { command, .. } => polls_done(polls, limit, erases_behind(command)),
        Phase::Writing { command, .. } => polls_done(polls, limit, writes_behind(command)),
        Phase::Polling { command, left } => wait_holds(polls, limit, command, left),
        Phase::Verifying { command } => polls_done(polls, limit, verifies_behind(command)),
        Phase::Ended { .. } => polls <= 562_941_363_552_255,
    }
}

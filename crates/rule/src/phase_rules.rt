// That a phase fits its command: the tests of each kind of phase.
ghost use Rattle.std.specs.Prelude.{◌≡◌, ◌&&◌, ◌+◌, ◌-◌, ltb, leb, length};
ghost use Rattle.settings.specs.Ranges.{accepted_range};
ghost use Rattle.flash.specs.Waits.{types_of};
ghost use Rattle.rule.specs.Rule.{job_ordered, job_rule, plan_rule, written_rule, differs_rule, table_rule, read_rule, erase_rule, write_rule, poll_rule, verify_rule, reset_rule, other_ends, program_ends, end_rule};

use commands::Answer;
use flash::Session;
use phases::{
    Command, EraseCommand, Job, PollCommand, ReadCommand, ResetCommand, VerifyCommand, WriteCommand,
};
use settings::Settings;

// Whether a range is accepted.
#[tactic(auto, unfolding(settings::specs::Ranges::check_address_length))]
fn accepted(s: Settings, address: u32, length: u64) -> bool
    ensures { result ≡ accepted_range s address length }
{
    s.check_address_length(address, length).is_ok()
}

// The addresses from first to last, as a range that is accepted.
#[tactic(auto, using(std::proofs::lemmas::Bool::Decides::nat_tests), unfolding(settings::specs::Ranges::accepted_range))]
fn accepted_to(s: Settings, first: u32, last: u32) -> bool
    ensures { result ≡ accepted_range s first (last + 1 - first) }
{
    first <= last && accepted(s, first, last as u64 + 1 - first as u64)
}

// Whether there are erase types.
pub fn has_types(s: Session) -> bool
    ensures { result ≡ ltb 0 (length (types_of s)) }
{
    !plans::is_empty(plans::erase_types(s.settings, s.known, s.params))
}

// A span that starts at or before the data, and ends with them or after them.
#[tactic(auto, unfolding(crate::specs::Rule::job_ordered, crate::specs::Rule::all))]
pub fn job_ordered(job: Job) -> bool
    ensures { result ≡ job_ordered job }
{
    job.base <= job.from && job.from <= job.last && job.last <= job.top
}

// A program that runs: its span is accepted.
#[tactic(auto, unfolding(crate::specs::Rule::job_rule, crate::specs::Rule::all))]
pub fn job_holds(s: Settings, job: Job) -> bool
    ensures { result ≡ job_rule s job }
{
    job_ordered(job) && accepted_to(s, job.base, job.top)
}

// A program that has yet to erase.
#[tactic(auto, unfolding(crate::specs::Rule::plan_rule, crate::specs::Rule::all))]
fn plan_holds(s: Settings, types: bool, job: Job) -> bool
    ensures { result ≡ plan_rule s types job }
{
    job_holds(s, job) && types
}

// A table's pointer is of three bytes. That the others are bytes of a reply their types say.
#[tactic(auto, unfolding(crate::specs::Rule::table_rule, crate::specs::Rule::all))]
fn table_holds(minor: u8, plen: u8, ptp: u32) -> bool
    ensures { result ≡ table_rule minor plen ptp }
{
    ptp < 16_777_216
}

// types: whether there are erase types, here and below.
#[tactic(auto, unfolding(crate::specs::Rule::read_rule, crate::specs::Rule::all))]
pub fn read_holds(s: Settings, types: bool, c: ReadCommand) -> bool
    ensures { result ≡ read_rule s types c }
{
    match c {
        ReadCommand::Read(_, a, n) => accepted(s, a, n),
        ReadCommand::Header => true,
        // A byte of a reply: its type says so.
        ReadCommand::Headers(_) => true,
        ReadCommand::Table(minor, plen, ptp) => table_holds(minor, plen, ptp),
        ReadCommand::Before(job) => plan_holds(s, types, job) && job.base < job.from,
        ReadCommand::After(job) => plan_holds(s, types, job) && job.last < job.top,
        ReadCommand::Id => true,
        ReadCommand::IdAgain => true,
        ReadCommand::Protected => true,
    }
}

// The position is in the range, and what is left of that is accepted.
#[tactic(auto, unfolding(crate::specs::Rule::erase_rule, crate::specs::Rule::all))]
pub fn erase_holds(s: Settings, types: bool, c: EraseCommand) -> bool
    ensures { result ≡ erase_rule s types c }
{
    match c {
        EraseCommand::Chip => true,
        EraseCommand::Sectors(at, last) => accepted_to(s, at, last) && types,
        EraseCommand::Program(job, at) => {
            plan_holds(s, types, job) && job.from <= at && at <= job.last
        }
    }
}

// What is written up to the byte `to`: all the data, and nothing past the span.
#[tactic(auto, unfolding(crate::specs::Rule::written_rule, crate::specs::Rule::all))]
fn written_holds(s: Settings, job: Job, to: u32) -> bool
    ensures { result ≡ written_rule s job to }
{
    let end = job.base as u64 + to as u64;
    job_holds(s, job) && job.last as u64 <= end && end <= job.top as u64
}

// The part starts at or before the last byte.
#[tactic(auto, unfolding(crate::specs::Rule::write_rule, crate::specs::Rule::all))]
pub fn write_holds(s: Settings, c: WriteCommand) -> bool
    ensures { result ≡ write_rule s c }
{
    match c {
        WriteCommand::Program(job, to, off) => written_holds(s, job, to) && off <= to,
        WriteCommand::Data(a, to, off) => accepted(s, a, to as u64 + 1) && off <= to,
    }
}

// Fewer polls than the limit may follow.
#[tactic(auto, unfolding(crate::specs::Rule::poll_rule, crate::specs::Rule::all))]
pub fn poll_holds(s: Settings, types: bool, c: PollCommand, left: u16) -> bool
    ensures { result ≡ poll_rule s types c left }
{
    match c {
        PollCommand::Once => left == 0,
        PollCommand::Erase(e) => erase_holds(s, types, e) && left < s.poll_limit,
        PollCommand::Write(w) => write_holds(s, w) && left < s.poll_limit,
    }
}

// A byte that differs lies in the span of a program that is verified.
#[tactic(auto, unfolding(crate::specs::Rule::differs_rule, crate::specs::Rule::all))]
fn differs(job: Job, address: u32, wrote: u8, read: u8) -> bool
    ensures { result ≡ differs_rule job address wrote read }
{
    job.verified && wrote != read && job.base <= address && address <= job.top
}

// Only a program that is to be verified is.
#[tactic(auto, unfolding(crate::specs::Rule::verify_rule, crate::specs::Rule::all))]
pub fn verify_holds(s: Settings, c: VerifyCommand) -> bool
    ensures { result ≡ verify_rule s c }
{
    match c {
        VerifyCommand::Compare(job, to) => job.verified && written_holds(s, job, to),
        VerifyCommand::Tell(job, m) => {
            job_holds(s, job) && differs(job, m.address, m.wrote, m.read)
        }
    }
}

// 66, 99; or F0 where those are ruled out and it is allowed.
#[tactic(auto, unfolding(crate::specs::Rule::reset_rule, crate::specs::Rule::allows66, crate::specs::Rule::all))]
pub fn reset_holds(s: Session, c: ResetCommand) -> bool
    ensures { result ≡ reset_rule s c }
{
    match c {
        ResetCommand::Enable | ResetCommand::Reset => flash::resets_by_66(s),
        ResetCommand::F0 => !flash::resets_by_66(s) && s.params.reset_inst_f0,
    }
}

// An answer that a command other than program ends with; never one that a start or a setter refuses with.
#[tactic(auto, unfolding(crate::specs::Rule::other_ends))]
fn other_ends(a: Answer) -> bool
    ensures { result ≡ other_ends a }
{
    matches!(
        a,
        Answer::Done
            | Answer::DoneBool(_)
            | Answer::DoneId(_, _, _)
            | Answer::InvalidManufacturer
            | Answer::InvalidSFDPHeader
            | Answer::InvalidSFDPParams
            | Answer::Access
            | Answer::Busy
            | Answer::NoSFDP
    )
}

// One that a program ends with; only Access before its reads had all come back.
#[tactic(auto, unfolding(crate::specs::Rule::program_ends, crate::specs::Rule::all))]
fn program_ends(job: Job, gathered: bool, a: Answer) -> bool
    ensures { result ≡ program_ends job gathered a }
{
    match a {
        Answer::Done | Answer::Busy => gathered,
        Answer::ReadbackError(address, wrote, read) => {
            gathered && differs(job, address, wrote, read)
        }
        Answer::Access => true,
        _ => false,
    }
}

// The job of a program that ended is ordered; the settings may have changed since.
#[tactic(auto, unfolding(crate::specs::Rule::end_rule, crate::specs::Rule::all))]
pub fn end_holds(c: Command, a: Answer) -> bool
    ensures { result ≡ end_rule c a }
{
    match c {
        Command::Other => other_ends(a),
        Command::Program(job, gathered) => job_ordered(job) && program_ends(job, gathered, a),
    }
}

// A phase as numbers, and back. The numbers are those of the bytes that hosts keep, so they stay whatever numbers the enums themselves have.
ghost use Rattle.std.specs.Prelude.{◌≡◌, false};
ghost use Rattle.packed.specs.Phases.{no_job, slots, bare, with_job, read_slots, read_in, erase_slots, erase_in, write_slots, write_in, verify_slots, verify_in, reset_slots, reset_in, reported, answer_numbers, answer_in, command_slots, command_in, place, poll_place, place_of, numbers_in, phase_in};
ghost use Rattle.packed.specs.Layout.{place_head, place_next, place_words, job_in, place_in};

use crate::{Place, Reported, Slots, numbers};
use commands::Answer;
use dwords::number;
use phases::{
    Command, EraseCommand, Job, Mismatch, Phase, PollCommand, ReadCommand, ResetCommand,
    VerifyCommand, WriteCommand,
};
use settings::BadRange;

// ---- commands

fn no_job() -> Job
    ensures { result ≡ no_job }
{
    Job {
        from: 0,
        last: 0,
        base: 0,
        top: 0,
        verified: false,
    }
}

fn marked(n: u8, flag: bool, job: Job, a: u32, b: u32, c: u32) -> Slots
    ensures { result ≡ slots n flag job a b c }
{
    Slots {
        command: n,
        flag,
        job,
        a,
        b,
        c,
    }
}

// A command with numbers alone.
fn bare_slots(n: u8, a: u32, b: u32, c: u32) -> Slots
    ensures { result ≡ bare n a b c }
{
    marked(n, false, no_job(), a, b, c)
}

// A command with a job.
fn with_job(n: u8, job: Job, a: u32, b: u32, c: u32) -> Slots
    ensures { result ≡ with_job n job a b c }
{
    marked(n, false, job, a, b, c)
}

#[tactic(auto, unfolding(crate::specs::Phases::read_slots))]
fn read_slots(c: ReadCommand) -> Slots
    ensures { result ≡ read_slots c }
{
    match c {
        ReadCommand::Read(legacy, a, n) => {
            marked(0, legacy, no_job(), a, numbers::low(n), numbers::high(n))
        }
        ReadCommand::Header => bare_slots(1, 0, 0, 0),
        ReadCommand::Headers(more) => bare_slots(2, more as u32, 0, 0),
        ReadCommand::Table(minor, plen, ptp) => bare_slots(3, minor as u32, plen as u32, ptp),
        ReadCommand::Before(job) => with_job(4, job, 0, 0, 0),
        ReadCommand::After(job) => with_job(5, job, 0, 0, 0),
        ReadCommand::Id => bare_slots(6, 0, 0, 0),
        ReadCommand::IdAgain => bare_slots(7, 0, 0, 0),
        ReadCommand::Protected => bare_slots(8, 0, 0, 0),
    }
}

#[tactic(auto, unfolding(crate::specs::Phases::read_in))]
fn read_in(s: Slots) -> ReadCommand
    ensures { result ≡ read_in s }
{
    let job = s.job;
    match s.command {
        0 => ReadCommand::Read(s.flag, s.a, numbers::wide(s.b, s.c)),
        1 => ReadCommand::Header,
        2 => ReadCommand::Headers(numbers::low_byte(s.a)),
        3 => ReadCommand::Table(numbers::low_byte(s.a), numbers::low_byte(s.b), s.c),
        4 => ReadCommand::Before(job),
        5 => ReadCommand::After(job),
        6 => ReadCommand::Id,
        7 => ReadCommand::IdAgain,
        _ => ReadCommand::Protected,
    }
}

#[tactic(auto, unfolding(crate::specs::Phases::erase_slots))]
fn erase_slots(c: EraseCommand) -> Slots
    ensures { result ≡ erase_slots c }
{
    match c {
        EraseCommand::Chip => bare_slots(0, 0, 0, 0),
        EraseCommand::Sectors(at, last) => bare_slots(1, at, last, 0),
        EraseCommand::Program(job, at) => with_job(2, job, at, 0, 0),
    }
}

#[tactic(auto, unfolding(crate::specs::Phases::erase_in))]
fn erase_in(s: Slots) -> EraseCommand
    ensures { result ≡ erase_in s }
{
    let job = s.job;
    match s.command {
        0 => EraseCommand::Chip,
        1 => EraseCommand::Sectors(s.a, s.b),
        _ => EraseCommand::Program(job, s.a),
    }
}

#[tactic(auto, unfolding(crate::specs::Phases::write_slots))]
fn write_slots(c: WriteCommand) -> Slots
    ensures { result ≡ write_slots c }
{
    match c {
        WriteCommand::Program(job, to, off) => with_job(0, job, to, off, 0),
        WriteCommand::Data(a, to, off) => bare_slots(1, a, to, off),
    }
}

#[tactic(auto, unfolding(crate::specs::Phases::write_in))]
fn write_in(s: Slots) -> WriteCommand
    ensures { result ≡ write_in s }
{
    let job = s.job;
    match s.command {
        0 => WriteCommand::Program(job, s.a, s.b),
        _ => WriteCommand::Data(s.a, s.b, s.c),
    }
}

#[tactic(auto, unfolding(crate::specs::Phases::verify_slots))]
fn verify_slots(c: VerifyCommand) -> Slots
    ensures { result ≡ verify_slots c }
{
    match c {
        VerifyCommand::Compare(job, to) => with_job(0, job, to, 0, 0),
        VerifyCommand::Tell(job, m) => {
            with_job(1, job, m.address, m.wrote as u32, m.read as u32)
        }
    }
}

#[tactic(auto, unfolding(crate::specs::Phases::verify_in))]
fn verify_in(s: Slots) -> VerifyCommand
    ensures { result ≡ verify_in s }
{
    let job = s.job;
    match s.command {
        0 => VerifyCommand::Compare(job, s.a),
        _ => {
            let m = Mismatch {
                address: s.a,
                wrote: numbers::low_byte(s.b),
                read: numbers::low_byte(s.c),
            };
            VerifyCommand::Tell(job, m)
        }
    }
}

#[tactic(auto, unfolding(crate::specs::Phases::reset_slots))]
fn reset_slots(c: ResetCommand) -> Slots
    ensures { result ≡ reset_slots c }
{
    match c {
        ResetCommand::Enable => bare_slots(0, 0, 0, 0),
        ResetCommand::Reset => bare_slots(1, 0, 0, 0),
        ResetCommand::F0 => bare_slots(2, 0, 0, 0),
    }
}

#[tactic(auto, unfolding(crate::specs::Phases::reset_in))]
fn reset_in(s: Slots) -> ResetCommand
    ensures { result ≡ reset_in s }
{
    match s.command {
        0 => ResetCommand::Enable,
        1 => ResetCommand::Reset,
        _ => ResetCommand::F0,
    }
}

// ---- answers

fn numbered(n: u8, a: u32, b: u32, c: u32) -> Reported
    ensures { result ≡ reported n a b c }
{
    Reported { answer: n, a, b, c }
}

#[tactic(auto, unfolding(crate::specs::Phases::answer_numbers))]
fn answer_numbers(a: Answer) -> Reported
    ensures { result ≡ answer_numbers a }
{
    match a {
        Answer::Done => numbered(0, 0, 0, 0),
        Answer::DoneBool(b) => numbered(1, u8::from(b) as u32, 0, 0),
        Answer::DoneId(bank, manufacturer, device) => {
            numbered(2, bank as u32, manufacturer as u32, device as u32)
        }
        Answer::ReadbackError(x, wrote, read) => numbered(3, x, wrote as u32, read as u32),
        Answer::InvalidManufacturer => numbered(4, 0, 0, 0),
        Answer::InvalidSFDPHeader => numbered(5, 0, 0, 0),
        Answer::InvalidSFDPParams => numbered(6, 0, 0, 0),
        Answer::InvalidAddress(report) => numbered(7, report.last, 0, 0),
        Answer::NoResetInstruction => numbered(8, 0, 0, 0),
        Answer::NoEraseInstruction => numbered(9, 0, 0, 0),
        Answer::Access => numbered(10, 0, 0, 0),
        Answer::Busy => numbered(11, 0, 0, 0),
        Answer::BadSetting => numbered(12, 0, 0, 0),
        Answer::NoRoom(n) => numbered(13, numbers::low(n), numbers::high(n), 0),
        Answer::NoSFDP => numbered(14, 0, 0, 0),
        Answer::BadSession => numbered(15, 0, 0, 0),
    }
}

#[tactic(auto, unfolding(crate::specs::Phases::answer_in))]
fn answer_in(n: Reported) -> Answer
    ensures { result ≡ answer_in n }
{
    match n.answer {
        0 => Answer::Done,
        1 => Answer::DoneBool(n.a == 1),
        2 => Answer::DoneId(
            numbers::low_byte(n.a),
            numbers::low_byte(n.b),
            numbers::low_half(n.c),
        ),
        3 => Answer::ReadbackError(n.a, numbers::low_byte(n.b), numbers::low_byte(n.c)),
        4 => Answer::InvalidManufacturer,
        5 => Answer::InvalidSFDPHeader,
        6 => Answer::InvalidSFDPParams,
        7 => Answer::InvalidAddress(BadRange { last: n.a }),
        8 => Answer::NoResetInstruction,
        9 => Answer::NoEraseInstruction,
        10 => Answer::Access,
        11 => Answer::Busy,
        12 => Answer::BadSetting,
        13 => Answer::NoRoom(numbers::wide(n.a, n.b)),
        14 => Answer::NoSFDP,
        _ => Answer::BadSession,
    }
}

// A command that ended, with its answer's numbers.
#[tactic(auto, unfolding(crate::specs::Phases::command_slots))]
fn command_slots(c: Command, n: Reported) -> Slots
    ensures { result ≡ command_slots c n }
{
    match c {
        Command::Other => bare_slots(0, n.a, n.b, n.c),
        Command::Program(job, read) => marked(1, read, job, n.a, n.b, n.c),
    }
}

#[tactic(auto, unfolding(crate::specs::Phases::command_in))]
fn command_in(s: Slots) -> Command
    ensures { result ≡ command_in s }
{
    let job = s.job;
    match s.command {
        0 => Command::Other,
        _ => Command::Program(job, s.flag),
    }
}

// ---- phases

fn placed(n: u8, answer: u8, enabled: bool, left: u16, s: Slots) -> Place
    ensures { result ≡ place n answer enabled left s }
{
    Place {
        phase: n,
        answer,
        enabled,
        left,
        slots: s,
    }
}

#[tactic(auto, unfolding(crate::specs::Phases::poll_place))]
fn poll_place(c: PollCommand, left: u16) -> Place
    ensures { result ≡ poll_place c left }
{
    match c {
        PollCommand::Once => placed(3, 0, false, left, bare_slots(0, 0, 0, 0)),
        PollCommand::Erase(e) => placed(4, 0, false, left, erase_slots(e)),
        PollCommand::Write(w) => placed(5, 0, false, left, write_slots(w)),
    }
}

#[tactic(auto, unfolding(crate::specs::Phases::place_of))]
pub fn place_of(p: Phase) -> Place
    ensures { result ≡ place_of p }
{
    match p {
        Phase::Reading { command } => placed(0, 0, false, 0, read_slots(command)),
        Phase::Erasing { command, enabled } => placed(1, 0, enabled, 0, erase_slots(command)),
        Phase::Writing { command, enabled } => placed(2, 0, enabled, 0, write_slots(command)),
        Phase::Polling { command, left } => poll_place(command, left),
        Phase::Verifying { command } => placed(6, 0, false, 0, verify_slots(command)),
        Phase::Resetting { command } => placed(7, 0, false, 0, reset_slots(command)),
        Phase::Ended { command, answer } => {
            let n = answer_numbers(answer);
            placed(8, n.answer, false, 0, command_slots(command, n))
        }
    }
}

#[tactic(auto, unfolding(crate::specs::Layout::place_head))]
fn place_head(p: Place) -> u32
    ensures { result ≡ place_head p }
{
    number(p.phase, p.slots.command, p.answer, u8::from(p.enabled))
}

#[tactic(auto, unfolding(crate::specs::Layout::place_next))]
fn place_next(p: Place) -> u32
    ensures { result ≡ place_next p }
{
    let verified = u8::from(p.slots.job.verified);
    let flag = u8::from(p.slots.flag);
    numbers::halves_word(p.left, u16::from_le_bytes([verified, flag]))
}

// A phase's numbers, its job's and its command's as words.
pub fn place_words(p: Place) -> [u32; 9]
    ensures { result ≡ place_words p }
{
    let c = p.slots;
    let j = c.job;
    [
        place_head(p),
        place_next(p),
        j.from,
        j.last,
        j.base,
        j.top,
        c.a,
        c.b,
        c.c,
    ]
}

// ---- and back

#[tactic(auto, unfolding(crate::specs::Layout::job_in))]
fn job_in(w: &[u32; 64]) -> Job
    ensures { result ≡ job_in w.now }
{
    let [_, _, verified, _] = w[50].to_le_bytes();
    Job {
        from: w[51],
        last: w[52],
        base: w[53],
        top: w[54],
        verified: verified == 1,
    }
}

#[tactic(auto, unfolding(crate::specs::Layout::place_in))]
pub fn place_in(w: &[u32; 64]) -> Place
    ensures { result ≡ place_in w.now }
{
    let [phase, command, answer, enabled] = w[49].to_le_bytes();
    let [_, _, _, flag] = w[50].to_le_bytes();
    let slots = marked(command, flag == 1, job_in(w), w[55], w[56], w[57]);
    placed(phase, answer, enabled == 1, numbers::low_half(w[50]), slots)
}

// The answer's numbers stand in its command's slots.
fn numbers_in(p: Place) -> Reported
    ensures { result ≡ numbers_in p }
{
    let s = p.slots;
    numbered(p.answer, s.a, s.b, s.c)
}

fn polling(c: PollCommand, left: u16) -> Phase
    ensures { result ≡ Phase.Polling c left }
{
    Phase::Polling { command: c, left }
}

#[tactic(auto, unfolding(crate::specs::Phases::phase_in))]
pub fn phase_in(p: Place) -> Phase
    ensures { result ≡ phase_in p }
{
    let s = p.slots;
    match p.phase {
        0 => Phase::Reading {
            command: read_in(s),
        },
        1 => Phase::Erasing {
            command: erase_in(s),
            enabled: p.enabled,
        },
        2 => Phase::Writing {
            command: write_in(s),
            enabled: p.enabled,
        },
        3 => polling(PollCommand::Once, p.left),
        4 => polling(PollCommand::Erase(erase_in(s)), p.left),
        5 => polling(PollCommand::Write(write_in(s)), p.left),
        6 => Phase::Verifying {
            command: verify_in(s),
        },
        7 => Phase::Resetting {
            command: reset_in(s),
        },
        _ => Phase::Ended {
            command: command_in(s),
            answer: answer_in(numbers_in(p)),
        },
    }
}

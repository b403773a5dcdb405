// Phases: which part of which command is running, and the transaction that each phase asks for, as far as no session is needed.
#![tactic(auto)]

pub mod ends;
pub mod polls;
pub mod reads;
pub mod replies;

ghost use Rattle.std.specs.Prelude.{◌≡◌, ◌+◌, ◌-◌, ◌%◌, ◌^◌, true};
ghost use Rattle.phases.specs.Waits.{bare, addressed, read_tx, block_tx, part_last, page_tx, write_tx, verify_tx, reset_tx, is_poll, reply_of, span_of, read_need, erase_need, write_need, poll_need, verify_need, need_of};

use commands::Answer;
use erase_plan::NextEntry;
use settings::Settings;

// What a program is about: the first and last address of its data, and of its plan's span. verified: read back at the end.
#[derive(Clone, Copy)]
pub struct Job {
    pub from: u32,
    pub last: u32,
    pub base: u32,
    pub top: u32,
    pub verified: bool,
}

// The first differing byte on verify: address, wrote, read.
#[derive(Clone, Copy)]
pub struct Mismatch {
    pub address: u32,
    pub wrote: u8,
    pub read: u8,
}

// A read that is under way, and what it is for.
#[derive(Clone, Copy)]
pub enum ReadCommand {
    // read, or legacy_read: address and length.
    Read(bool, u32, u64),
    // read_params: the first 8 bytes; all headers, by byte 6 of the first reply; the table, by minor, dword count, pointer.
    Header,
    Headers(u8),
    Table(u8, u8, u32),
    // program: the bytes before its data, and those after it.
    Before(Job),
    After(Job),
    // read_jedec_id: 3 bytes, then 16.
    Id,
    IdAgain,
    // is_protected.
    Protected,
}

// An erase that is under way.
#[derive(Clone, Copy)]
pub enum EraseCommand {
    Chip,
    // erase_sectors: the position in the plan, and the range's last address.
    Sectors(u32, u32),
    // program, with the position in the plan.
    Program(Job, u32),
}

// A page write that is under way: of the room's bytes from off on, up to the byte `to`, which is the last one.
#[derive(Clone, Copy)]
pub enum WriteCommand {
    // program: to, off.
    Program(Job, u32, u32),
    // program_data: address, to, off.
    Data(u32, u32, u32),
}

// What is waited for.
#[derive(Clone, Copy)]
pub enum PollCommand {
    // is_busy: one poll.
    Once,
    Erase(EraseCommand),
    Write(WriteCommand),
}

// A verify that is under way.
#[derive(Clone, Copy)]
pub enum VerifyCommand {
    // The bytes up to the byte `to` are read back.
    Compare(Job, u32),
    // They differ: one status read.
    Tell(Job, Mismatch),
}

// reset: 66, 99; or F0.
#[derive(Clone, Copy)]
pub enum ResetCommand {
    Enable,
    Reset,
    F0,
}

// The command that ended. A program keeps its job, and whether its reads had all come back.
#[derive(Clone, Copy)]
pub enum Command {
    Other,
    Program(Job, bool),
}

// What the session waits on. enabled: whether the 06 was answered. left: how many polls may follow the one waited on.
#[derive(Clone, Copy)]
pub enum Phase {
    Reading {
        command: ReadCommand,
    },
    Erasing {
        command: EraseCommand,
        enabled: bool,
    },
    Writing {
        command: WriteCommand,
        enabled: bool,
    },
    Polling {
        command: PollCommand,
        left: u16,
    },
    Verifying {
        command: VerifyCommand,
    },
    Resetting {
        command: ResetCommand,
    },
    Ended {
        command: Command,
        answer: Answer,
    },
}

// A transaction for the host: command byte, address in so many bytes (0: none), dummy or not, payload as a part of the lent
// room (from, len), reply length; whether it is a poll; and the delay after it, in µs.
#[derive(Clone, Copy)]
pub struct Transaction {
    pub opcode: u8,
    pub addressed: u8,
    pub address: u32,
    pub dummy: bool,
    pub from: u32,
    pub len: u64,
    pub reply: u64,
    pub poll: bool,
    pub delay: u32,
}

// ---- numbers

// The bytes of a program's span.
pub fn span_of(job: Job) -> u64
    ensures { result ≡ span_of job }
{
    (job.top as u64 + 1).saturating_sub(job.base as u64)
}

// ---- transactions

pub fn bare_tx(opcode: u8, reply: u64) -> Transaction
    ensures { result ≡ bare opcode reply }
{
    Transaction {
        opcode,
        addressed: 0,
        address: 0,
        dummy: false,
        from: 0,
        len: 0,
        reply,
        poll: false,
        delay: 0,
    }
}

fn addressed_tx(opcode: u8, bytes: u8, address: u32, dummy: bool, reply: u64) -> Transaction
    ensures { result ≡ addressed opcode bytes address dummy reply }
{
    Transaction {
        addressed: bytes,
        address,
        dummy,
        ..bare_tx(opcode, reply)
    }
}

#[tactic(auto, unfolding(crate::specs::Waits::read_tx))]
pub fn read_tx(s: Settings, c: ReadCommand) -> Transaction
    ensures { result ≡ read_tx s c }
{
    let bytes = s.address_bytes;
    match c {
        ReadCommand::Read(true, a, n) => addressed_tx(0x03, bytes, a, false, n),
        ReadCommand::Read(false, a, n) => addressed_tx(0x0B, bytes, a, true, n),
        ReadCommand::Header => addressed_tx(0x5A, 3, 0, true, 8),
        ReadCommand::Headers(more) => addressed_tx(0x5A, 3, 0, true, 16 + 8 * (more as u64)),
        ReadCommand::Table(_, plen, ptp) => addressed_tx(0x5A, 3, ptp, true, 4 * (plen as u64)),
        ReadCommand::Before(job) => before_tx(bytes, job),
        ReadCommand::After(job) => after_tx(bytes, job),
        ReadCommand::Id => bare_tx(0x9F, 3),
        ReadCommand::IdAgain => bare_tx(0x9F, 16),
        ReadCommand::Protected => bare_tx(0x05, 1),
    }
}

// The bytes of the span before the data.
fn before_tx(bytes: u8, job: Job) -> Transaction
    ensures { result ≡ addressed 11 bytes job.base true (job.from - job.base) }
{
    let n = job.from.saturating_sub(job.base) as u64;
    addressed_tx(0x0B, bytes, job.base, true, n)
}

// The bytes of the span after the data.
fn after_tx(bytes: u8, job: Job) -> Transaction
    ensures { result ≡ addressed 11 bytes ((job.last + 1) % 2 ^ 32) true (job.top - job.last) }
{
    let n = job.top.saturating_sub(job.last) as u64;
    addressed_tx(0x0B, bytes, job.last.wrapping_add(1), true, n)
}

#[tactic(auto, using(std::proofs::lemmas::Bool::Decides::nat_tests), unfolding(crate::specs::Waits::block_tx))]
pub fn block_tx(bytes: u8, next: Option<NextEntry>) -> Transaction
    ensures { result ≡ block_tx bytes next }
{
    match next {
        None => addressed_tx(0, bytes, 0, false, 0),
        Some(NextEntry { entry, .. }) => Transaction {
            delay: if entry.timed == 1 { entry.time / 2 } else { 0 },
            ..addressed_tx(entry.opcode, bytes, entry.base, false, 0)
        },
    }
}

// The last byte of the page part that starts at byte off.
#[tactic(auto, unfolding(crate::specs::Waits::part_last))]
pub fn part_last(page: u32, a: u32, off: u32, to: u32) -> u32
    ensures { result ≡ part_last page a off to }
{
    let place = a as u64 + off as u64;
    let left = if page == 0 {
        0
    } else {
        page as u64 - place % (page as u64)
    };
    (off as u64 + left).saturating_sub(1).min(to as u64) as u32
}

#[tactic(auto, unfolding(crate::specs::Waits::page_tx))]
fn page_tx(s: Settings, pause: u32, a: u32, to: u32, off: u32) -> Transaction
    ensures { result ≡ page_tx s pause a to off }
{
    let stop = part_last(s.page(), a, off, to);
    Transaction {
        addressed: s.address_bytes,
        address: a.wrapping_add(off),
        from: off,
        len: (stop as u64 + 1).saturating_sub(off as u64),
        delay: pause,
        ..bare_tx(0x02, 0)
    }
}

#[tactic(auto, unfolding(crate::specs::Waits::write_tx))]
pub fn write_tx(s: Settings, pause: u32, c: WriteCommand) -> Transaction
    ensures { result ≡ write_tx s pause c }
{
    match c {
        WriteCommand::Program(job, to, off) => page_tx(s, pause, job.base, to, off),
        WriteCommand::Data(a, to, off) => page_tx(s, pause, a, to, off),
    }
}

#[tactic(auto, unfolding(crate::specs::Waits::verify_tx))]
pub fn verify_tx(bytes: u8, c: VerifyCommand) -> Transaction
    ensures { result ≡ verify_tx bytes c }
{
    match c {
        VerifyCommand::Compare(job, to) => {
            addressed_tx(0x0B, bytes, job.base, true, to as u64 + 1)
        }
        VerifyCommand::Tell(..) => bare_tx(0x05, 1),
    }
}

#[tactic(auto, unfolding(crate::specs::Waits::reset_tx))]
pub fn reset_tx(c: ResetCommand) -> Transaction
    ensures { result ≡ reset_tx c }
{
    match c {
        ResetCommand::Enable => bare_tx(0x66, 0),
        ResetCommand::Reset => bare_tx(0x99, 0),
        ResetCommand::F0 => bare_tx(0xF0, 0),
    }
}

// ---- what is asked of the host, by the phase alone

// Whether a phase waits on a poll.
#[tactic(auto, unfolding(crate::specs::Waits::is_poll))]
pub fn is_poll(p: Phase) -> bool
    ensures { result ≡ is_poll p }
{
    matches!(p, Phase::Polling { .. })
}

// How many bytes its transaction asks for, the same by all settings.
#[tactic(auto, using(crate::proofs::Lengths::read_same, crate::proofs::Lengths::verify_same), unfolding(crate::specs::Waits::reply_of))]
pub fn reply_of(p: Phase) -> u64
    ensures { (x : Settings) → result ≡ reply_of x p }
{
    match p {
        Phase::Reading { command } => read_tx(Settings::new(), command).reply,
        Phase::Verifying { command } => verify_tx(0, command).reply,
        Phase::Polling { .. } => 1,
        Phase::Erasing { .. }
        | Phase::Writing { .. }
        | Phase::Resetting { .. }
        | Phase::Ended { .. } => 0,
    }
}

// ---- the room that a command needs

#[tactic(auto, unfolding(crate::specs::Waits::read_need))]
fn read_need(c: ReadCommand) -> u64
    ensures { result ≡ read_need c }
{
    match c {
        ReadCommand::Read(_, _, n) => n,
        ReadCommand::Header | ReadCommand::Headers(_) | ReadCommand::Table(..) => 2056,
        ReadCommand::Before(job) | ReadCommand::After(job) => span_of(job),
        ReadCommand::Id | ReadCommand::IdAgain | ReadCommand::Protected => 0,
    }
}

#[tactic(auto, unfolding(crate::specs::Waits::erase_need))]
fn erase_need(c: EraseCommand) -> u64
    ensures { result ≡ erase_need c }
{
    match c {
        EraseCommand::Chip | EraseCommand::Sectors(..) => 0,
        EraseCommand::Program(job, _) => span_of(job),
    }
}

#[tactic(auto, unfolding(crate::specs::Waits::write_need))]
fn write_need(c: WriteCommand) -> u64
    ensures { result ≡ write_need c }
{
    match c {
        WriteCommand::Program(job, _, _) => span_of(job),
        WriteCommand::Data(_, to, _) => to as u64 + 1,
    }
}

#[tactic(auto, unfolding(crate::specs::Waits::poll_need))]
fn poll_need(c: PollCommand) -> u64
    ensures { result ≡ poll_need c }
{
    match c {
        PollCommand::Once => 0,
        PollCommand::Erase(e) => erase_need(e),
        PollCommand::Write(w) => write_need(w),
    }
}

#[tactic(auto, unfolding(crate::specs::Waits::verify_need))]
fn verify_need(c: VerifyCommand) -> u64
    ensures { result ≡ verify_need c }
{
    match c {
        VerifyCommand::Compare(job, _) | VerifyCommand::Tell(job, _) => span_of(job),
    }
}

// The room that must be lent at each step of a command.
#[tactic(auto, unfolding(crate::specs::Waits::need_of))]
pub fn need_of(p: Phase) -> u64
    ensures { result ≡ need_of p }
{
    match p {
        Phase::Reading { command } => read_need(command),
        Phase::Erasing { command, .. } => erase_need(command),
        Phase::Writing { command, .. } => write_need(command),
        Phase::Polling { command, .. } => poll_need(command),
        Phase::Verifying { command } => verify_need(command),
        Phase::Resetting { .. } | Phase::Ended { .. } => 0,
    }
}

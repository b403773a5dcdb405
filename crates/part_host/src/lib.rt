// A host for the driver and the modelled part: it carries out a command from its start to its answer, each transaction on the part.
#![tactic(auto)]

pub mod source;
mod wire;

use flash::{Session, Stepped};
use nor_part::{Part, State};
use source::Source;

// Where a command begins, and how many bytes it takes.
#[derive(Clone, Copy)]
pub struct Range {
    pub address: u32,
    pub length: u64,
}

// The commands in the order of crates/commands/specs/Calls.
#[derive(Clone, Copy)]
pub enum Command {
    Read(Range),
    LegacyRead(Range),
    ReadParams,
    Erase,
    EraseSectors(Range),
    Program { range: Range, verify: bool },
    ProgramData(Range),
    Reset,
    ReadJedecId,
    IsBusy,
    IsProtected,
}

// What 9F returns.
pub static ID: [u8; 5] = [0x7F, 0x7F, 0x20, 0xBA, 0x18];

// A part on the wire. slow: it stays busy beyond the poll limit; else up to it.
#[derive(Clone, Copy)]
pub struct Wired<'a> {
    pub part: Part<'a>,
    pub slow: bool,
}

// The driver with what it asks for next, the part's state, the random source, and how many transactions there were.
#[derive(Clone, Copy)]
pub struct Play {
    pub stepped: Stepped,
    pub state: State,
    pub source: Source,
    pub count: u64,
}

fn start(command: Command, session: Session, data: &[u8], work: &mut [u8]) -> Stepped {
    let len = work.len() as u64;
    match command {
        Command::Read(r) => session.read(r.address, r.length, len),
        Command::LegacyRead(r) => session.legacy_read(r.address, r.length, len),
        Command::ReadParams => session.read_params(len),
        Command::Erase => session.erase(),
        Command::EraseSectors(r) => session.erase_sectors(r.address, r.length),
        Command::Program { range: r, verify } => {
            session.program(r.address, room::payload(data, 0, r.length), verify, work)
        }
        Command::ProgramData(r) => {
            session.program_data(r.address, room::payload(data, 0, r.length), work)
        }
        Command::Reset => session.reset(),
        Command::ReadJedecId => session.read_jedec_id(),
        Command::IsBusy => session.is_busy(),
        Command::IsProtected => session.is_protected(),
    }
}

// A command from its start to its answer.
pub fn carry_out(
    session: Session,
    state: State,
    source: Source,
    wired: Wired<'_>,
    command: Command,
    data: &[u8],
    work: &mut [u8],
    memory: &mut [u8],
) -> Play {
    let limit = session.settings.poll_limit;
    let play = Play {
        stepped: start(command, session, data, work),
        state,
        source,
        count: 0,
    };
    wire::played(play, wired, limit, work, memory)
}

// What a read's reply leads to.
ghost use Rattle.std.specs.Prelude.{◌≡◌};
ghost use Rattle.commands.specs.Commands.{id_at, first_id};
ghost use Rattle.phases.specs.Moves.{to_after, to_before, with_header, after_read};

use crate::ends::over;
use crate::{EraseCommand, Job, Phase, ReadCommand};
use commands::Answer;
use dwords::byte_at;
use sfdp::{SFDPError, SFDPParameterHeader};

// A program goes on after the bytes before its data were read.
#[tactic(auto, using(std::proofs::lemmas::Bool::Decides::nat_tests), unfolding(crate::specs::Moves::to_after))]
pub fn to_after(job: Job) -> Phase
    ensures { result ≡ to_after job }
{
    if job.last < job.top {
        Phase::Reading {
            command: ReadCommand::After(job),
        }
    } else {
        Phase::Erasing {
            command: EraseCommand::Program(job, job.from),
            enabled: false,
        }
    }
}

// A program's first phase.
#[tactic(auto, using(std::proofs::lemmas::Bool::Decides::nat_tests), unfolding(crate::specs::Moves::to_before))]
pub fn to_before(job: Job) -> Phase
    ensures { result ≡ to_before job }
{
    if job.base < job.from {
        Phase::Reading {
            command: ReadCommand::Before(job),
        }
    } else {
        to_after(job)
    }
}

// What the first header leads to.
#[tactic(auto, unfolding(crate::specs::Moves::with_header))]
fn with_header(h: Result<SFDPParameterHeader, SFDPError>) -> Phase
    ensures { result ≡ with_header h }
{
    match h {
        Ok(p) => Phase::Reading {
            command: ReadCommand::Table(p.minor, p.plen, p.ptp),
        },
        Err(e) => over(Answer::from(e)),
    }
}

fn id_at(at: u8, reply: &[u8]) -> Answer
    ensures { result ≡ id_at at reply.now }
{
    let i = at as usize;
    let device = u16::from_be_bytes([byte_at(reply, i + 1), byte_at(reply, i + 2)]);
    Answer::DoneId(at, byte_at(reply, i), device)
}

// The first of bytes 1 to 13 that is not 7F, with the two after it.
#[tactic(auto, using(crate::proofs::Makers::more, crate::proofs::Makers::found, crate::proofs::Makers::none))]
fn first_id(reply: &[u8]) -> Answer
    ensures { result ≡ first_id 13 1 reply.now }
{
    for at in 1..14u8 {
        if byte_at(reply, at as usize) != 0x7F {
            return id_at(at, reply);
        }
    }
    Answer::InvalidManufacturer
}

// The phase after a read's full reply. A table changes the session too, and its answer is the session's.
#[tactic(auto, using(std::proofs::lemmas::Bool::Decides::nat_tests), unfolding(crate::specs::Moves::after_read))]
pub fn read_on(c: ReadCommand, reply: &[u8]) -> Phase
    ensures { result ≡ after_read c reply.now }
{
    match c {
        ReadCommand::Read(..) | ReadCommand::Table(..) => over(Answer::Done),
        ReadCommand::Header => Phase::Reading {
            command: ReadCommand::Headers(byte_at(reply, 6)),
        },
        ReadCommand::Headers(_) => with_header(sfdp::read_header(reply)),
        ReadCommand::Before(job) => to_after(job),
        ReadCommand::After(job) => Phase::Erasing {
            command: EraseCommand::Program(job, job.from),
            enabled: false,
        },
        ReadCommand::Id => {
            if byte_at(reply, 0) == 0x7F {
                Phase::Reading {
                    command: ReadCommand::IdAgain,
                }
            } else {
                over(id_at(0, reply))
            }
        }
        ReadCommand::IdAgain => over(first_id(reply)),
        ReadCommand::Protected => {
            let status = byte_at(reply, 0);
            over(Answer::DoneBool(status / 4 % 8 != 0))
        }
    }
}

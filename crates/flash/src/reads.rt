// What a read's reply leads to, and how a session ends.
ghost use Rattle.std.specs.Prelude.{◌≡◌};
ghost use Rattle.flash.specs.Steps.{ends, with_table, read_on};

use crate::Session;
use commands::Answer;
use phases::{Command, Phase, ReadCommand};
use sfdp::{FlashParams, SFDPError};

// The session ended, with so many polls.
pub fn ended(s: Session, n: u64, command: Command, answer: Answer) -> Session
    ensures { result ≡ ends s n command answer }
{
    s.goes(Phase::Ended { command, answer }, n)
}

// The session after the table: new parameters, the settings by them, and the answer Done; or what refuses the table.
#[tactic(auto, unfolding(crate::specs::Steps::with_table))]
fn with_table(s: Session, n: u64, table: Result<FlashParams, SFDPError>) -> Session
    ensures { result ≡ with_table s n table }
{
    match table {
        Ok(params) => Session {
            settings: s.settings.update(params),
            known: true,
            params,
            ..ended(s, n, Command::Other, Answer::Done)
        },
        Err(e) => ended(s, n, Command::Other, Answer::from(e)),
    }
}

// The session after a read's full reply.
#[tactic(auto, unfolding(crate::specs::Steps::read_on))]
pub fn read_on(s: Session, n: u64, c: ReadCommand, reply: &[u8]) -> Session
    ensures { result ≡ read_on s n c reply.now }
{
    match c {
        ReadCommand::Table(minor, plen, _) => {
            with_table(s, n, FlashParams::from_bytes(minor, plen, reply))
        }
        _ => s.goes(phases::reads::read_on(c, reply), n),
    }
}

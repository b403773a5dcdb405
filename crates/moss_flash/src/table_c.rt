// The SFDP area of an emulated part for C.
ghost use Rattle.std.specs.Prelude.{◌≡◌};
ghost use Rattle.sfdp_write.specs.Written.{answer_number};
ghost use Rattle.moss_flash.specs.Calls.{unpack_of};
ghost use Rattle.moss_flash.specs.Tables.{table_of, table_called};

use crate::Refusal;
use flash::Session;
use sfdp_write::WriteError;

// What writing the table answers; 15 where the session has no parameters.
#[tactic(auto, unfolding(crate::specs::Tables::table_of))]
fn write_known(s: Session, table: &mut [u8]) -> Result<(), WriteError>
    ensures { (answer_number result ≡ (table_of s table.old).number) × (table.new ≡ (table_of s table.old).room) }
{
    if s.known {
        sfdp_write::write_table(s.params, table)
    } else {
        Err(WriteError::NoForm)
    }
}

// The SFDP area, 80 bytes, of a part with the session's parameters: 13; 15 where it has none, or no table gives them back exactly; 11 where fewer than
// 80 bytes are lent; else 0.
pub fn moss_flash_write_table(session: &[u8], table: &mut [u8]) -> u8
    ensures { (result ≡ (table_called (unpack_of session.now) table.old).number) × (table.new ≡ (table_called (unpack_of session.now) table.old).room) }
{
    match crate::unpack(session) {
        None => Refusal::BadSession.number(),
        Some(s) => sfdp_write::answer_number(write_known(s, table)),
    }
}

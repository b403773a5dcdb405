// The SFDP area of an emulated part for C. As exports.
ghost use Rattle.std.specs.Prelude.{◌≡◌};
ghost use Rattle.moss_flash.specs.Calls.{unpack_of};
ghost use Rattle.moss_flash.specs.Tables.{table_called};

// The SFDP area, 80 bytes, of a part with the session's parameters: 13; 15 where it has none, or no table gives them back exactly; 11 where fewer than
// 80 bytes are lent; else 0.
#[unsafe(no_mangle)]
pub extern "C" fn moss_flash_write_table(session: &[u8], table: &mut [u8]) -> u8
    ensures { (result ≡ (table_called (unpack_of session.now) table.old).number) × (table.new ≡ (table_called (unpack_of session.now) table.old).room) }
{
    moss_flash::table_c::moss_flash_write_table(session, table)
}

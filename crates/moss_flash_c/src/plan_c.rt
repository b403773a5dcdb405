// The plan for C: each entry is a record of 16 bytes in a lent slice. As exports.
ghost use Rattle.std.specs.Prelude.{◌≡◌, length};
ghost use Rattle.moss_flash.specs.Calls.{opened_of};
ghost use Rattle.moss_flash.specs.Plans.{plan_called};

// The plan of a range: its entries, or a refusal that changes no slot.
#[unsafe(no_mangle)]
pub extern "C" fn moss_flash_make_erase_plan(
    session: &[u8],
    address: u32,
    size: u64,
    entries: &mut [u8],
    event: &mut [u8],
) -> u8
    ensures { (result ≡ (plan_called (opened_of session.now (length event.old)) address size entries.old event.old).number) × (entries.new ≡ (plan_called (opened_of session.now (length event.old)) address size entries.old event.old).room) × (event.new ≡ (plan_called (opened_of session.now (length event.old)) address size entries.old event.old).event) }
{
    moss_flash::plan_c::moss_flash_make_erase_plan(session, address, size, entries, event)
}

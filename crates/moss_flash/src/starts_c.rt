// The starts and the step for C. A bad session is 13, an event record of less than 64 bytes is 11; nothing is changed then.
ghost use Rattle.std.specs.Prelude.{◌≡◌, false, true, not, [], eqb, length};
ghost use Rattle.flash.specs.Steps.{step_of};
ghost use Rattle.flash.specs.Waits.{told};
ghost use Rattle.flash.specs.Starts.{start_read, start_read_params, start_erase, start_erase_sectors, start_program, start_program_data, start_reset, start_read_jedec_id, start_is_busy, start_is_protected};
ghost use Rattle.moss_flash.specs.Calls.{opened_of, opened_start, called, took, Started};

use flash::{Session, Stepped};

// A start that is lent no buffer.
fn started<F: FnOnce(Session) -> Stepped>(session: &mut [u8], event: &mut [u8], command: F) -> u8
    requires { F.IsAlwaysCallable command }
    ensures { Started (F.post command) (opened_start session.old (length event.old)) session.old event.old result session.new event.new }
{
    match crate::open_start(session, event.len()) {
        Err(refusal) => refusal.number(),
        Ok(s) => crate::hand_back(command(s), session, event),
    }
}

// room: the length of the out buffer that each step will be lent.
pub fn moss_flash_read(
    session: &mut [u8],
    address: u32,
    size: u64,
    room: u64,
    event: &mut [u8],
) -> u8
    ensures { (result ≡ (called (opened_start session.old (length event.old)) session.old event.old [] (λ s. took (start_read s false address size room) [])).number) × (session.new ≡ (called (opened_start session.old (length event.old)) session.old event.old [] (λ s. took (start_read s false address size room) [])).session) × (event.new ≡ (called (opened_start session.old (length event.old)) session.old event.old [] (λ s. took (start_read s false address size room) [])).event) }
{
    started(session, event, |s| s.read(address, size, room))
}

// By 03.
pub fn moss_flash_legacy_read(
    session: &mut [u8],
    address: u32,
    size: u64,
    room: u64,
    event: &mut [u8],
) -> u8
    ensures { (result ≡ (called (opened_start session.old (length event.old)) session.old event.old [] (λ s. took (start_read s true address size room) [])).number) × (session.new ≡ (called (opened_start session.old (length event.old)) session.old event.old [] (λ s. took (start_read s true address size room) [])).session) × (event.new ≡ (called (opened_start session.old (length event.old)) session.old event.old [] (λ s. took (start_read s true address size room) [])).event) }
{
    started(session, event, |s| s.legacy_read(address, size, room))
}

// room: the length of the working buffer.
pub fn moss_flash_read_params(session: &mut [u8], room: u64, event: &mut [u8]) -> u8
    ensures { (result ≡ (called (opened_start session.old (length event.old)) session.old event.old [] (λ s. took (start_read_params s room) [])).number) × (session.new ≡ (called (opened_start session.old (length event.old)) session.old event.old [] (λ s. took (start_read_params s room) [])).session) × (event.new ≡ (called (opened_start session.old (length event.old)) session.old event.old [] (λ s. took (start_read_params s room) [])).event) }
{
    started(session, event, |s| s.read_params(room))
}

// The whole chip.
pub fn moss_flash_erase(session: &mut [u8], event: &mut [u8]) -> u8
    ensures { (result ≡ (called (opened_start session.old (length event.old)) session.old event.old [] (λ s. took (start_erase s) [])).number) × (session.new ≡ (called (opened_start session.old (length event.old)) session.old event.old [] (λ s. took (start_erase s) [])).session) × (event.new ≡ (called (opened_start session.old (length event.old)) session.old event.old [] (λ s. took (start_erase s) [])).event) }
{
    started(session, event, |s| s.erase())
}

// The sectors of a range.
pub fn moss_flash_erase_sectors(session: &mut [u8], address: u32, size: u64, event: &mut [u8]) -> u8
    ensures { (result ≡ (called (opened_start session.old (length event.old)) session.old event.old [] (λ s. took (start_erase_sectors s address size) [])).number) × (session.new ≡ (called (opened_start session.old (length event.old)) session.old event.old [] (λ s. took (start_erase_sectors s address size) [])).session) × (event.new ≡ (called (opened_start session.old (length event.old)) session.old event.old [] (λ s. took (start_erase_sectors s address size) [])).event) }
{
    started(session, event, |s| s.erase_sectors(address, size))
}

// By 66 and 99, or by F0.
pub fn moss_flash_reset(session: &mut [u8], event: &mut [u8]) -> u8
    ensures { (result ≡ (called (opened_start session.old (length event.old)) session.old event.old [] (λ s. took (start_reset s) [])).number) × (session.new ≡ (called (opened_start session.old (length event.old)) session.old event.old [] (λ s. took (start_reset s) [])).session) × (event.new ≡ (called (opened_start session.old (length event.old)) session.old event.old [] (λ s. took (start_reset s) [])).event) }
{
    started(session, event, |s| s.reset())
}

// Bank, manufacturer and device.
pub fn moss_flash_read_jedec_id(session: &mut [u8], event: &mut [u8]) -> u8
    ensures { (result ≡ (called (opened_start session.old (length event.old)) session.old event.old [] (λ s. took (start_read_jedec_id s) [])).number) × (session.new ≡ (called (opened_start session.old (length event.old)) session.old event.old [] (λ s. took (start_read_jedec_id s) [])).session) × (event.new ≡ (called (opened_start session.old (length event.old)) session.old event.old [] (λ s. took (start_read_jedec_id s) [])).event) }
{
    started(session, event, |s| s.read_jedec_id())
}

// One poll.
pub fn moss_flash_is_busy(session: &mut [u8], event: &mut [u8]) -> u8
    ensures { (result ≡ (called (opened_start session.old (length event.old)) session.old event.old [] (λ s. took (start_is_busy s) [])).number) × (session.new ≡ (called (opened_start session.old (length event.old)) session.old event.old [] (λ s. took (start_is_busy s) [])).session) × (event.new ≡ (called (opened_start session.old (length event.old)) session.old event.old [] (λ s. took (start_is_busy s) [])).event) }
{
    started(session, event, |s| s.is_busy())
}

// One 05 read.
pub fn moss_flash_is_protected(session: &mut [u8], event: &mut [u8]) -> u8
    ensures { (result ≡ (called (opened_start session.old (length event.old)) session.old event.old [] (λ s. took (start_is_protected s) [])).number) × (session.new ≡ (called (opened_start session.old (length event.old)) session.old event.old [] (λ s. took (start_is_protected s) [])).session) × (event.new ≡ (called (opened_start session.old (length event.old)) session.old event.old [] (λ s. took (start_is_protected s) [])).event) }
{
    started(session, event, |s| s.is_protected())
}

// The data are copied into the working buffer, byte 0 of which stands for the first erased address. verify: 0 is no.
pub fn moss_flash_program(
    session: &mut [u8],
    address: u32,
    data: &[u8],
    verify: u8,
    work: &mut [u8],
    event: &mut [u8],
) -> u8
    ensures { (result ≡ (called (opened_start session.old (length event.old)) session.old event.old work.old (λ s. start_program s address «data».now (not (eqb verify 0)) work.old)).number) × (session.new ≡ (called (opened_start session.old (length event.old)) session.old event.old work.old (λ s. start_program s address «data».now (not (eqb verify 0)) work.old)).session) × (event.new ≡ (called (opened_start session.old (length event.old)) session.old event.old work.old (λ s. start_program s address «data».now (not (eqb verify 0)) work.old)).event) × (work.new ≡ (called (opened_start session.old (length event.old)) session.old event.old work.old (λ s. start_program s address «data».now (not (eqb verify 0)) work.old)).room) }
{
    let opened = crate::open_start(session, event.len());
    crate::lent(
        opened,
        session,
        event,
        work,
        |s, work| s.program(address, data, verify != 0, work),
    )
}

// The data are copied into the working buffer.
pub fn moss_flash_program_data(
    session: &mut [u8],
    address: u32,
    data: &[u8],
    work: &mut [u8],
    event: &mut [u8],
) -> u8
    ensures { (result ≡ (called (opened_start session.old (length event.old)) session.old event.old work.old (λ s. start_program_data s address «data».now work.old)).number) × (session.new ≡ (called (opened_start session.old (length event.old)) session.old event.old work.old (λ s. start_program_data s address «data».now work.old)).session) × (event.new ≡ (called (opened_start session.old (length event.old)) session.old event.old work.old (λ s. start_program_data s address «data».now work.old)).event) × (work.new ≡ (called (opened_start session.old (length event.old)) session.old event.old work.old (λ s. start_program_data s address «data».now work.old)).room) }
{
    let opened = crate::open_start(session, event.len());
    crate::lent(
        opened,
        session,
        event,
        work,
        |s, work| s.program_data(address, data, work),
    )
}

// The reply to the transaction that the session waits on. failed: 0 is no. work: the command's working or out buffer.
pub fn moss_flash_step(
    session: &mut [u8],
    failed: u8,
    reply: &[u8],
    work: &mut [u8],
    event: &mut [u8],
) -> u8
    ensures { (result ≡ (called (opened_of session.old (length event.old)) session.old event.old work.old (λ s. step_of s (not (eqb failed 0)) reply.now work.old)).number) × (session.new ≡ (called (opened_of session.old (length event.old)) session.old event.old work.old (λ s. step_of s (not (eqb failed 0)) reply.now work.old)).session) × (event.new ≡ (called (opened_of session.old (length event.old)) session.old event.old work.old (λ s. step_of s (not (eqb failed 0)) reply.now work.old)).event) × (work.new ≡ (called (opened_of session.old (length event.old)) session.old event.old work.old (λ s. step_of s (not (eqb failed 0)) reply.now work.old)).room) }
{
    match crate::open(session, event.len()) {
        Err(refusal) => refusal.number(),
        Ok(s) => crate::hand_back(s.step(failed != 0, reply, work), session, event),
    }
}

// What the session waits on, or its last answer, told again.
pub fn moss_flash_event(session: &[u8], event: &mut [u8]) -> u8
    ensures { (result ≡ (called (opened_of session.now (length event.old)) session.now event.old [] (λ s. took (told s) [])).number) × (event.new ≡ (called (opened_of session.now (length event.old)) session.now event.old [] (λ s. took (told s) [])).event) }
{
    match crate::open(session, event.len()) {
        Err(refusal) => refusal.number(),
        Ok(s) => {
            let told = s.tell().event;
            crate::records::write_event(event, told);
            crate::number_in(told)
        }
    }
}

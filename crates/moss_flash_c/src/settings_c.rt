// The fresh session, the setters and the settings' record for C. As exports.
ghost use Rattle.std.specs.Prelude.{◌≡◌, Ok};
ghost use Rattle.settings.specs.Limits.{set_address_bytes, set_page_size, set_erase_size, set_poll_limit, set_capacity, clear_capacity, set_erase_opcode};
ghost use Rattle.flash.specs.Starts.{setting};
ghost use Rattle.moss_flash.specs.Calls.{unpack_of, new_of, set_called, settings_called};

// A fresh session, where there are exactly 256 bytes for it; else 13.
#[unsafe(no_mangle)]
pub extern "C" fn moss_flash_new(session: &mut [u8]) -> u8
    ensures { (result ≡ (new_of session.old).number) × (session.new ≡ (new_of session.old).session) }
{
    moss_flash::settings_c::moss_flash_new(session)
}

#[unsafe(no_mangle)]
pub extern "C" fn moss_flash_set_address_bytes(session: &mut [u8], n: u8) -> u8
    ensures { (result ≡ (set_called (unpack_of session.old) session.old (λ s. setting s (set_address_bytes s.settings n))).number) × (session.new ≡ (set_called (unpack_of session.old) session.old (λ s. setting s (set_address_bytes s.settings n))).session) }
{
    moss_flash::settings_c::moss_flash_set_address_bytes(session, n)
}

#[unsafe(no_mangle)]
pub extern "C" fn moss_flash_set_page_size(session: &mut [u8], n: u64) -> u8
    ensures { (result ≡ (set_called (unpack_of session.old) session.old (λ s. setting s (set_page_size s.settings n))).number) × (session.new ≡ (set_called (unpack_of session.old) session.old (λ s. setting s (set_page_size s.settings n))).session) }
{
    moss_flash::settings_c::moss_flash_set_page_size(session, n)
}

#[unsafe(no_mangle)]
pub extern "C" fn moss_flash_set_erase_size(session: &mut [u8], n: u64) -> u8
    ensures { (result ≡ (set_called (unpack_of session.old) session.old (λ s. setting s (set_erase_size s.settings n))).number) × (session.new ≡ (set_called (unpack_of session.old) session.old (λ s. setting s (set_erase_size s.settings n))).session) }
{
    moss_flash::settings_c::moss_flash_set_erase_size(session, n)
}

#[unsafe(no_mangle)]
pub extern "C" fn moss_flash_set_erase_opcode(session: &mut [u8], opcode: u8) -> u8
    ensures { (result ≡ (set_called (unpack_of session.old) session.old (λ s. setting s (Ok (set_erase_opcode s.settings opcode)))).number) × (session.new ≡ (set_called (unpack_of session.old) session.old (λ s. setting s (Ok (set_erase_opcode s.settings opcode)))).session) }
{
    moss_flash::settings_c::moss_flash_set_erase_opcode(session, opcode)
}

#[unsafe(no_mangle)]
pub extern "C" fn moss_flash_set_poll_limit(session: &mut [u8], n: u32) -> u8
    ensures { (result ≡ (set_called (unpack_of session.old) session.old (λ s. setting s (set_poll_limit s.settings n))).number) × (session.new ≡ (set_called (unpack_of session.old) session.old (λ s. setting s (set_poll_limit s.settings n))).session) }
{
    moss_flash::settings_c::moss_flash_set_poll_limit(session, n)
}

#[unsafe(no_mangle)]
pub extern "C" fn moss_flash_set_capacity(session: &mut [u8], n: u64) -> u8
    ensures { (result ≡ (set_called (unpack_of session.old) session.old (λ s. setting s (Ok (set_capacity s.settings n)))).number) × (session.new ≡ (set_called (unpack_of session.old) session.old (λ s. setting s (Ok (set_capacity s.settings n)))).session) }
{
    moss_flash::settings_c::moss_flash_set_capacity(session, n)
}

#[unsafe(no_mangle)]
pub extern "C" fn moss_flash_clear_capacity(session: &mut [u8]) -> u8
    ensures { (result ≡ (set_called (unpack_of session.old) session.old (λ s. setting s (Ok (clear_capacity s.settings)))).number) × (session.new ≡ (set_called (unpack_of session.old) session.old (λ s. setting s (Ok (clear_capacity s.settings)))).session) }
{
    moss_flash::settings_c::moss_flash_clear_capacity(session)
}

// The settings' record: 13, then 11 where it has less than 32 bytes; else 0.
#[unsafe(no_mangle)]
pub extern "C" fn moss_flash_settings(session: &[u8], settings: &mut [u8]) -> u8
    ensures { (result ≡ (settings_called (unpack_of session.now) settings.old).number) × (settings.new ≡ (settings_called (unpack_of session.now) settings.old).event) }
{
    moss_flash::settings_c::moss_flash_settings(session, settings)
}

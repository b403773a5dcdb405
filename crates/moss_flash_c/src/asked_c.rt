// What C may ask besides running a command: the version, the parameters that a table gave, the span of a program. As exports.
ghost use Rattle.std.specs.Prelude.{◌≡◌, length};
ghost use Rattle.moss_flash.specs.Calls.{unpack_of, opened_of};
ghost use Rattle.moss_flash.specs.Asked.{version, params_called, span_called};

// The version of the interface: major, minor and patch, a byte each, the patch lowest.
#[unsafe(no_mangle)]
pub extern "C" fn moss_flash_version() -> u32
    ensures { result ≡ version }
{
    moss_flash::asked_c::moss_flash_version()
}

// The parameters' record: 13, then 11 where it has less than 192 bytes; else 0.
#[unsafe(no_mangle)]
pub extern "C" fn moss_flash_params(session: &[u8], params: &mut [u8]) -> u8
    ensures { (result ≡ (params_called (unpack_of session.now) params.old).number) × (params.new ≡ (params_called (unpack_of session.now) params.old).event) }
{
    moss_flash::asked_c::moss_flash_params(session, params)
}

// The span of a program of a range. It only looks: a command may be running.
#[unsafe(no_mangle)]
pub extern "C" fn moss_flash_span(session: &[u8], address: u32, size: u64, event: &mut [u8]) -> u8
    ensures { (result ≡ (span_called (opened_of session.now (length event.old)) address size event.old).number) × (event.new ≡ (span_called (opened_of session.now (length event.old)) address size event.old).event) }
{
    moss_flash::asked_c::moss_flash_span(session, address, size, event)
}

// The exports of crate bench_parts, which tools/bench calls.
#![tactic(auto)]

#[unsafe(no_mangle)]
pub extern "C" fn mg_bench_blank(bytes: &[u8], len: u64) -> u64 {
    bench_parts::mg_bench_blank(bytes, len)
}

// The session is read once, without the tests, and packed so many times.
#[unsafe(no_mangle)]
pub extern "C" fn mg_bench_pack(session: &[u8], out: &mut [u8], turns: u32) {
    bench_parts::mg_bench_pack(session, out, turns);
}

// Unpacked as the exports do it: read, held to its rule, packed again and compared. 1 if the bytes are a session's, else 0.
#[unsafe(no_mangle)]
pub extern "C" fn mg_bench_unpack(session: &[u8]) -> u64 {
    bench_parts::mg_bench_unpack(session)
}

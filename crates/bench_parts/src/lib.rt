// What tools/bench calls: the parts of a step that have a line of their own. For the benchmark alone.
#![tactic(auto)]

// ---- the all-FF test

pub fn mg_bench_blank(bytes: &[u8], len: u64) -> u64 {
    room::is_blank(bytes, 0, len) as u64
}

// ---- a session and its bytes

// The session is read once, without the tests, and packed so many times.
pub fn mg_bench_pack(session: &[u8], out: &mut [u8], turns: u32) {
    let s = packed::get(session);
    for _ in 0..turns {
        packed::put(out, s);
    }
}

// Unpacked as the exports do it: read, held to its rule, packed again and compared. 1 if the bytes are a session's, else 0.
pub fn mg_bench_unpack(session: &[u8]) -> u64 {
    moss_flash::unpack(session).is_some() as u64
}

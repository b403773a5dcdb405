// The exports of crate bench, which tools/bench calls.
#![tactic(auto)]

// A table read, and the fields that the Rust has too.
#[unsafe(no_mangle)]
pub extern "C" fn mg_bench_sfdp_shared(minor: u8, plen: u8, data: &[u8]) -> u64 {
    bench::mg_bench_sfdp_shared(minor, plen, data)
}

// A table read, and all its fields: more than the Rust reads.
#[unsafe(no_mangle)]
pub extern "C" fn mg_bench_sfdp(minor: u8, plen: u8, data: &[u8]) -> u64 {
    bench::mg_bench_sfdp(minor, plen, data)
}

// A plan from address 0 to a last address with three types, entry by entry.
#[unsafe(no_mangle)]
pub extern "C" fn mg_bench_plan(small: u32, middle: u32, large: u32, last: u32) -> u64 {
    bench::mg_bench_plan(small, middle, large, last)
}

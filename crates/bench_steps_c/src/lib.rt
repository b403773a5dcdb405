// The export of crate bench_steps, which tools/bench calls.
#![tactic(auto)]

// A program without verify on a part of 64 KiB with sectors of 4 KiB, all of it FF and always ready.
#[unsafe(no_mangle)]
pub extern "C" fn mg_bench_program(address: u32, data: &[u8], work: &mut [u8]) -> u64 {
    bench_steps::mg_bench_program(address, data, work)
}

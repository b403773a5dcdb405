// What tools/bench calls: each function runs a proved function and folds its result into one number, so that nothing
// of it is left out. For the benchmark alone. tools/bench/bench.rs folds the Rust's results by the same rules.
#![tactic(auto)]

use erase_plan::{EraseEntry, EraseType, EraseTypes, NextEntry};
use sfdp::{
    FlashParams, SFDPEraseInst, SFDPEraseInsts, SFDPRawTimes, SFDPStatus1Volatility, SFDPTiming,
};

// first + 3 * later. A struct's fields are a chain of these, so their weights are the powers of 3. The chains are
// multiplied by 2, 4, 5, 7, 8 and products of these: no two fields have the same weight, so that no two can be swapped.
// The chains are nested calls and no folds of arrays: both sides fold so, and the time is to be that of the reading.
pub fn then(first: u64, later: u64) -> u64 {
    first.wrapping_add(later.wrapping_mul(3))
}

// ---- the fields that the Rust has too

fn fold_inst(i: SFDPEraseInst) -> u64 {
    let times = then(i.timed as u64, then(i.time_typ as u64, i.time_max));
    then(i.opcode as u64, then(i.size as u64, times))
}

fn fold_insts(s: SFDPEraseInsts) -> u64 {
    fold_inst(s.inst1)
        .wrapping_add(fold_inst(s.inst2).wrapping_mul(2))
        .wrapping_add(fold_inst(s.inst3).wrapping_mul(4))
        .wrapping_add(fold_inst(s.inst4).wrapping_mul(8))
}

fn fold_times(t: SFDPTiming) -> u64 {
    let page = then(t.page_prog_time_typ as u64, t.page_prog_time_max);
    let succ = then(
        t.succ_byte_prog_time_typ as u64,
        then(t.succ_byte_prog_time_max, page),
    );
    let first = then(
        t.first_byte_prog_time_typ as u64,
        then(t.first_byte_prog_time_max, succ),
    );
    then(
        t.chip_erase_time_typ as u64,
        then(t.chip_erase_time_max, first),
    )
}

fn fold_legacy(p: FlashParams) -> u64 {
    let granularity = then(p.legacy_byte_write_granularity as u64, p.density);
    let protect = then(p.legacy_block_protect_volatile as u64, granularity);
    let flags = then(p.legacy_4kb_erase_supported as u64, protect);
    let insts = then(p.legacy_volatile_write_en_inst as u64, flags);
    let addressed = then(
        p.address_bytes as u64,
        then(p.legacy_4kb_erase_inst as u64, insts),
    );
    then(
        p.version_major as u64,
        then(p.version_minor as u64, addressed),
    )
}

// The number that tools/bench/bench.rs has for it, which is not the one of dword 16.
fn volatility_code(v: SFDPStatus1Volatility) -> u64 {
    match v {
        SFDPStatus1Volatility::NonVolatile06 => 0,
        SFDPStatus1Volatility::Volatile06 => 1,
        SFDPStatus1Volatility::Volatile50 => 2,
        SFDPStatus1Volatility::NonVolatile06Volatile50 => 3,
        SFDPStatus1Volatility::Mixed06 => 4,
        SFDPStatus1Volatility::Reserved => 5,
    }
}

fn fold_later(p: FlashParams) -> u64 {
    let codes = then(
        volatility_code(p.status_1_vol),
        then(p.jesd216a as u64, p.page_size as u64),
    );
    let resets = then(
        p.reset_inst_f0 as u64,
        then(p.reset_inst_66_99 as u64, codes),
    );
    then(
        p.busy_poll_flag as u64,
        then(p.busy_poll_status as u64, resets),
    )
}

fn fold_shared(p: FlashParams) -> u64 {
    fold_legacy(p)
        .wrapping_add(fold_insts(p.erase_insts).wrapping_mul(5))
        .wrapping_add(fold_times(p.timing).wrapping_mul(7))
        .wrapping_add(fold_later(p).wrapping_mul(35))
}

// ---- the fields that only ours has

fn fold_raw(r: SFDPRawTimes) -> u64 {
    let page = then(r.chip_erase as u64, r.page_prog as u64);
    let bytes = then(
        r.first_byte_prog as u64,
        then(r.succ_byte_prog as u64, page),
    );
    then(
        r.erase_multiplier as u64,
        then(r.prog_multiplier as u64, bytes),
    )
}

fn fold_own(p: FlashParams) -> u64 {
    let s = p.erase_insts;
    let modes = then(
        p.exit_4byte_e9 as u64,
        then(p.enter_4byte_b7 as u64, fold_raw(p.raw)),
    );
    let back = then(
        s.inst3.time_raw as u64,
        then(s.inst4.time_raw as u64, modes),
    );
    let front = then(s.inst1.time_raw as u64, then(s.inst2.time_raw as u64, back));
    front.wrapping_mul(14)
}

// ---- the benchmarks

// A table read, and the fields that the Rust has too.
pub fn mg_bench_sfdp_shared(minor: u8, plen: u8, data: &[u8]) -> u64 {
    match FlashParams::from_bytes(minor, plen, data) {
        Ok(p) => fold_shared(p),
        Err(_) => 4,
    }
}

// A table read, and all its fields: more than the Rust reads.
pub fn mg_bench_sfdp(minor: u8, plen: u8, data: &[u8]) -> u64 {
    match FlashParams::from_bytes(minor, plen, data) {
        Ok(p) => fold_shared(p).wrapping_add(fold_own(p)),
        Err(_) => 4,
    }
}

// ---- plans

fn type_of(size: u32, opcode: u8) -> EraseType {
    EraseType {
        size,
        opcode,
        timed: false,
        time: 0,
    }
}

fn fold_entry(e: EraseEntry) -> u64 {
    then(
        e.opcode as u64,
        then(e.size as u64, then(e.base as u64, e.time as u64)),
    )
}

// A plan's entries, folded. later: whether the position is known to be a multiple of every size. Each entry takes an address at least, so
// 2^32 of them pass every last address.
fn walked(ts: EraseTypes, from: u32, last: u32) -> u64 {
    let mut at = from;
    let mut later = false;
    let mut folded: u64 = 0;
    for _ in 0..0x1_0000_0000u64 {
        match erase_plan::entry_at(ts, later, at, last) {
            None => break,
            Some(NextEntry { entry, stop }) => {
                folded = folded.wrapping_add(fold_entry(entry));
                if stop == last {
                    break;
                }
                at = stop.wrapping_add(1);
                later = erase_plan::later_next(ts, later);
            }
        }
    }
    folded
}

// A plan from address 0 to a last address with three types, entry by entry.
pub fn mg_bench_plan(small: u32, middle: u32, large: u32, last: u32) -> u64 {
    let ts = erase_plan::sorted(
        type_of(large, 0xD8),
        type_of(small, 0x20),
        type_of(middle, 0x52),
        type_of(0, 0),
    );
    walked(ts, 0, last)
}

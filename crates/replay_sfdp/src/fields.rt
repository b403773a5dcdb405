// The fields of the parameters against the 128 bytes of a record.
ghost use Rattle.std.specs.Prelude.{◌<◌};

use dwords::{byte_at, number_at};
use settings::Settings;
use sfdp::{FlashParams, SFDPEraseInst, SFDPStatus1Volatility, SFDPTiming};
use tallies::{number16_at, number64_at};

// A record's number, which is not the one of dword 16.
fn volatility_code(v: SFDPStatus1Volatility) -> u8 {
    match v {
        SFDPStatus1Volatility::NonVolatile06 => 0,
        SFDPStatus1Volatility::Volatile06 => 1,
        SFDPStatus1Volatility::Volatile50 => 2,
        SFDPStatus1Volatility::NonVolatile06Volatile50 => 3,
        SFDPStatus1Volatility::Mixed06 => 4,
        SFDPStatus1Volatility::Reserved => 5,
    }
}

// A record has 0 where the volatility is unknown.
pub fn same_volatility(p: FlashParams, want: &[u8]) -> bool {
    let code = if p.jesd216a {
        volatility_code(p.status_1_vol)
    } else {
        0
    };
    byte_at(want, 14) == code
}

// The opcode of the smallest type, and the erase opcode of the settings afterwards.
pub fn same_sector(p: FlashParams, want: &[u8]) -> bool {
    let opcode = p.sector_erase().map_or(0, |erase| erase.opcode);
    byte_at(want, 40) == opcode && byte_at(want, 123) == Settings::new().update(p).erase_opcode
}

// The other settings afterwards, from a fresh start.
fn same_settings(p: FlashParams, want: &[u8]) -> bool {
    let s = Settings::new().update(p);
    byte_at(want, 122) == s.address_bytes
        && number_at(want, 124) == s.erase_size
        && s.capacity == Some(number64_at(want, 24))
        && number_at(want, 32) == s.page_size
}

fn same_sector_size(p: FlashParams, want: &[u8]) -> bool {
    let (found, size) = p.sector_erase().map_or((0, 0), |erase| (1, erase.size));
    byte_at(want, 15) == found && number_at(want, 36) == size
}

fn same_legacy(p: FlashParams, want: &[u8]) -> bool {
    byte_at(want, 1) == p.version_major
        && byte_at(want, 2) == p.version_minor
        && byte_at(want, 3) == p.address_bytes as u8
        && byte_at(want, 4) == p.legacy_4kb_erase_supported as u8
        && byte_at(want, 5) == p.legacy_4kb_erase_inst
        && byte_at(want, 6) == p.legacy_volatile_write_en_inst
        && byte_at(want, 7) == p.legacy_block_protect_volatile as u8
        && byte_at(want, 8) == p.legacy_byte_write_granularity as u8
        && number64_at(want, 16) == p.density
        && number64_at(want, 24) == p.capacity_bytes()
}

// The erase instruction at place i, from 0. Its times are known where the table has them.
fn same_inst(e: SFDPEraseInst, want: &[u8], i: u16, timed: bool) -> bool
    requires { i < 4 }
{
    e.timed == (timed && e.size != 0)
        && byte_at(want, 41 + i as usize) == e.opcode
        && number_at(want, 48 + 4 * i) == e.size
        && number_at(want, 64 + 4 * i) == e.time_typ
        && number_at(want, 80 + 4 * i) as u64 == e.time_max
}

fn same_insts(p: FlashParams, want: &[u8]) -> bool {
    let s = p.erase_insts;
    let timed = p.jesd216a;
    same_inst(s.inst1, want, 0, timed)
        && same_inst(s.inst2, want, 1, timed)
        && same_inst(s.inst3, want, 2, timed)
        && same_inst(s.inst4, want, 3, timed)
}

fn same_timing(t: SFDPTiming, want: &[u8]) -> bool {
    number_at(want, 96) == t.chip_erase_time_typ
        && number64_at(want, 100) == t.chip_erase_time_max
        && number16_at(want, 108) as u32 == t.first_byte_prog_time_typ
        && number16_at(want, 110) as u64 == t.first_byte_prog_time_max
        && number16_at(want, 112) as u32 == t.succ_byte_prog_time_typ
        && number16_at(want, 114) as u64 == t.succ_byte_prog_time_max
        && number16_at(want, 116) as u32 == t.page_prog_time_typ
        && number_at(want, 118) as u64 == t.page_prog_time_max
}

fn same_extended(p: FlashParams, want: &[u8]) -> bool {
    byte_at(want, 9) == p.jesd216a as u8
        && byte_at(want, 10) == p.busy_poll_flag as u8
        && byte_at(want, 11) == p.busy_poll_status as u8
        && byte_at(want, 12) == p.reset_inst_f0 as u8
        && byte_at(want, 13) == p.reset_inst_66_99 as u8
        && number_at(want, 32) == p.page_size
}

// Every field but the volatility and the opcode of the smallest type.
// Compared one by one: a record lacks fields that the parameters have, so no value of their type can be made of it.
pub fn same(p: FlashParams, want: &[u8]) -> bool {
    same_legacy(p, want)
        && same_insts(p, want)
        && same_timing(p.timing, want)
        && same_extended(p, want)
        && same_sector_size(p, want)
        && same_settings(p, want)
}

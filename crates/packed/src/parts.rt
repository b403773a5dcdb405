// The settings and the parameters as words, and back.
ghost use Rattle.std.specs.Prelude.{◌≡◌, ◌≤◌};
ghost use Rattle.packed.specs.Layout.{address_in, volatility_code, volatility_in, settings_words, params_words, inst_words, timing_words, blank, shown, settings_in, inst_in, insts_in, timing_in, raw_in, params_in, known_in, params_or_none};

use crate::numbers;
use dwords::number;
use flash::Session;
use settings::Settings;
use sfdp::{
    FlashParams, SFDPAddressBytes, SFDPEraseInst, SFDPEraseInsts, SFDPRawTimes,
    SFDPStatus1Volatility, SFDPTiming,
};

// ---- enums by number: those of the layout, which stay whatever numbers the enums themselves have

#[tactic(auto, unfolding(crate::specs::Layout::address_in))]
fn address_in(n: u8) -> SFDPAddressBytes
    ensures { result ≡ address_in n }
{
    match n {
        0 => SFDPAddressBytes::Three,
        1 => SFDPAddressBytes::ThreeOrFour,
        2 => SFDPAddressBytes::Four,
        _ => SFDPAddressBytes::Reserved,
    }
}

// The record of parameters has the same numbers by a function of its own: neither crate stands on the other, and they are no numbers
// of SFDP's.
#[tactic(auto, unfolding(crate::specs::Layout::volatility_code))]
fn volatility_code(v: SFDPStatus1Volatility) -> u8
    ensures { result ≡ volatility_code v }
{
    match v {
        SFDPStatus1Volatility::NonVolatile06 => 0,
        SFDPStatus1Volatility::Volatile06 => 1,
        SFDPStatus1Volatility::Volatile50 => 2,
        SFDPStatus1Volatility::NonVolatile06Volatile50 => 3,
        SFDPStatus1Volatility::Mixed06 => 4,
        SFDPStatus1Volatility::Reserved => 5,
    }
}

#[tactic(auto, unfolding(crate::specs::Layout::volatility_in))]
fn volatility_in(n: u8) -> SFDPStatus1Volatility
    ensures { result ≡ volatility_in n }
{
    match n {
        0 => SFDPStatus1Volatility::NonVolatile06,
        1 => SFDPStatus1Volatility::Volatile06,
        2 => SFDPStatus1Volatility::Volatile50,
        3 => SFDPStatus1Volatility::NonVolatile06Volatile50,
        4 => SFDPStatus1Volatility::Mixed06,
        _ => SFDPStatus1Volatility::Reserved,
    }
}

// ---- the parts as words

pub fn settings_words(s: Settings, known: bool) -> [u32; 6]
    ensures { result ≡ settings_words s known }
{
    [
        number(
            1,
            u8::from(known),
            s.address_bytes,
            u8::from(s.capacity.is_some()),
        ),
        numbers::low(s.capacity.unwrap_or(0)),
        numbers::high(s.capacity.unwrap_or(0)),
        s.page_size,
        s.erase_size,
        numbers::halves_word(s.erase_opcode as u16, s.poll_limit),
    ]
}

#[tactic(auto, unfolding(crate::specs::Layout::address_code))]
pub fn params_words(p: FlashParams) -> [u32; 9]
    ensures { result ≡ params_words p }
{
    let raw = p.raw;
    [
        number(
            p.version_major,
            p.version_minor,
            p.address_bytes as u8,
            volatility_code(p.status_1_vol),
        ),
        numbers::low(p.density),
        numbers::high(p.density),
        number(
            u8::from(p.legacy_4kb_erase_supported),
            p.legacy_4kb_erase_inst,
            p.legacy_volatile_write_en_inst,
            u8::from(p.legacy_block_protect_volatile),
        ),
        numbers::flags_word(
            p.legacy_byte_write_granularity,
            p.jesd216a,
            p.busy_poll_flag,
            p.busy_poll_status,
        ),
        numbers::flags_word(
            p.reset_inst_f0,
            p.reset_inst_66_99,
            p.exit_4byte_e9,
            p.enter_4byte_b7,
        ),
        p.page_size,
        number(
            raw.erase_multiplier,
            raw.prog_multiplier,
            raw.chip_erase,
            raw.first_byte_prog,
        ),
        number(raw.succ_byte_prog, raw.page_prog, 0, 0),
    ]
}

pub fn inst_words(i: SFDPEraseInst) -> [u32; 5]
    ensures { result ≡ inst_words i }
{
    [
        number(i.opcode, u8::from(i.timed), i.time_raw, 0),
        i.size,
        i.time_typ,
        numbers::low(i.time_max),
        numbers::high(i.time_max),
    ]
}

pub fn timing_words(t: SFDPTiming) -> [u32; 12]
    ensures { result ≡ timing_words t }
{
    [
        t.chip_erase_time_typ,
        numbers::low(t.chip_erase_time_max),
        numbers::high(t.chip_erase_time_max),
        t.first_byte_prog_time_typ,
        numbers::low(t.first_byte_prog_time_max),
        numbers::high(t.first_byte_prog_time_max),
        t.succ_byte_prog_time_typ,
        numbers::low(t.succ_byte_prog_time_max),
        numbers::high(t.succ_byte_prog_time_max),
        t.page_prog_time_typ,
        numbers::low(t.page_prog_time_max),
        numbers::high(t.page_prog_time_max),
    ]
}

// ---- the parameters whose words are all 0

fn blank_params() -> FlashParams
    ensures { result ≡ blank }
{
    let none = SFDPEraseInst::default();
    FlashParams {
        version_major: 0,
        version_minor: 0,
        address_bytes: SFDPAddressBytes::Three,
        density: 0,
        legacy_4kb_erase_supported: false,
        legacy_4kb_erase_inst: 0,
        legacy_volatile_write_en_inst: 0,
        legacy_block_protect_volatile: false,
        legacy_byte_write_granularity: false,
        erase_insts: SFDPEraseInsts {
            inst1: none,
            inst2: none,
            inst3: none,
            inst4: none,
        },
        jesd216a: false,
        timing: SFDPTiming::default(),
        raw: SFDPRawTimes::default(),
        page_size: 0,
        busy_poll_flag: false,
        busy_poll_status: false,
        reset_inst_f0: false,
        reset_inst_66_99: false,
        status_1_vol: SFDPStatus1Volatility::NonVolatile06,
        exit_4byte_e9: false,
        enter_4byte_b7: false,
    }
}

// The parameters that are written.
#[tactic(auto, unfolding(crate::specs::Layout::shown))]
pub fn shown_params(s: Session) -> FlashParams
    ensures { result ≡ shown s }
{
    if s.known { s.params } else { blank_params() }
}

// ---- and back

#[tactic(auto, unfolding(crate::specs::Layout::settings_in))]
pub fn settings_in(w: &[u32; 64]) -> Settings
    ensures { result ≡ settings_in w.now }
{
    let [_, _, address_bytes, capacity_set] = w[0].to_le_bytes();
    Settings {
        address_bytes,
        capacity: (capacity_set == 1).then_some(numbers::wide(w[1], w[2])),
        page_size: w[3],
        erase_size: w[4],
        erase_opcode: numbers::low_byte(w[5]),
        poll_limit: numbers::high_half(w[5]),
    }
}

// The erase instruction from a word on.
#[tactic(auto, unfolding(crate::specs::Layout::inst_in))]
fn inst_in(w: &[u32; 64], i: usize) -> SFDPEraseInst
    requires { i ≤ 59 }
    ensures { result ≡ inst_in w.now i }
{
    let [opcode, timed, time_raw, _] = w[i].to_le_bytes();
    SFDPEraseInst {
        opcode,
        size: w[i + 1],
        timed: timed == 1,
        time_typ: w[i + 2],
        time_max: numbers::wide(w[i + 3], w[i + 4]),
        time_raw,
    }
}

#[tactic(auto, unfolding(crate::specs::Layout::insts_in))]
fn insts_in(w: &[u32; 64]) -> SFDPEraseInsts
    ensures { result ≡ insts_in w.now }
{
    SFDPEraseInsts {
        inst1: inst_in(w, 15),
        inst2: inst_in(w, 20),
        inst3: inst_in(w, 25),
        inst4: inst_in(w, 30),
    }
}

#[tactic(auto, unfolding(crate::specs::Layout::timing_in))]
fn timing_in(w: &[u32; 64]) -> SFDPTiming
    ensures { result ≡ timing_in w.now }
{
    SFDPTiming {
        chip_erase_time_typ: w[35],
        chip_erase_time_max: numbers::wide(w[36], w[37]),
        first_byte_prog_time_typ: w[38],
        first_byte_prog_time_max: numbers::wide(w[39], w[40]),
        succ_byte_prog_time_typ: w[41],
        succ_byte_prog_time_max: numbers::wide(w[42], w[43]),
        page_prog_time_typ: w[44],
        page_prog_time_max: numbers::wide(w[45], w[46]),
    }
}

#[tactic(auto, unfolding(crate::specs::Layout::raw_in))]
fn raw_in(w: &[u32; 64]) -> SFDPRawTimes
    ensures { result ≡ raw_in w.now }
{
    let [
        erase_multiplier,
        prog_multiplier,
        chip_erase,
        first_byte_prog,
    ] = w[13].to_le_bytes();
    let [succ_byte_prog, page_prog, _, _] = w[14].to_le_bytes();
    SFDPRawTimes {
        erase_multiplier,
        prog_multiplier,
        chip_erase,
        first_byte_prog,
        succ_byte_prog,
        page_prog,
    }
}

#[tactic(auto, using(crate::proofs::Bytes::le_four), unfolding(crate::specs::Layout::params_in))]
fn params_in(w: &[u32; 64]) -> FlashParams
    ensures { result ≡ params_in w.now }
{
    let [version_major, version_minor, address, volatility] = w[6].to_le_bytes();
    let [
        supported,
        legacy_4kb_erase_inst,
        legacy_volatile_write_en_inst,
        protect,
    ] = w[9].to_le_bytes();
    let [granularity, jesd216a, busy_poll_flag, busy_poll_status] = numbers::flags_of(w[10]);
    let [
        reset_inst_f0,
        reset_inst_66_99,
        exit_4byte_e9,
        enter_4byte_b7,
    ] = numbers::flags_of(w[11]);
    FlashParams {
        version_major,
        version_minor,
        address_bytes: address_in(address),
        density: numbers::wide(w[7], w[8]),
        legacy_4kb_erase_supported: supported == 1,
        legacy_4kb_erase_inst,
        legacy_volatile_write_en_inst,
        legacy_block_protect_volatile: protect == 1,
        legacy_byte_write_granularity: granularity,
        erase_insts: insts_in(w),
        jesd216a,
        timing: timing_in(w),
        raw: raw_in(w),
        page_size: w[12],
        busy_poll_flag,
        busy_poll_status,
        reset_inst_f0,
        reset_inst_66_99,
        status_1_vol: volatility_in(volatility),
        exit_4byte_e9,
        enter_4byte_b7,
    }
}

#[tactic(auto, unfolding(crate::specs::Layout::known_in))]
pub fn known_in(w: &[u32; 64]) -> bool
    ensures { result ≡ known_in w.now }
{
    let [_, known, _, _] = w[0].to_le_bytes();
    known == 1
}

// The parameters; without them, those that stand for none.
#[tactic(auto, unfolding(crate::specs::Layout::params_or_none))]
pub fn params_or_none(w: &[u32; 64]) -> FlashParams
    ensures { result ≡ params_or_none w.now }
{
    if known_in(w) {
        params_in(w)
    } else {
        FlashParams::none()
    }
}

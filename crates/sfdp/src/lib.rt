// The SFDP area of a flash part, read as JESD216 lays it out: header, first parameter header, basic parameter table.
// Bytes are lent and only read. Any bytes of any length get an answer; a byte that is not there reads as FF.
#![tactic(auto)]

ghost use Rattle.std.specs.Prelude.{◌≡◌, true, false, not, ◌&&◌, eqb, cond, ◌^◌, ◌-◌, ◌≤◌, ◌<◌, drop, All};
ghost use Rattle.dwords.specs.Dwords.{bits, bit};
ghost use Rattle.sfdp.specs.Times.{maximum, time_of, erase_time, page_time, byte_time, chip_time};
ghost use Rattle.sfdp.specs.Jesd216.{signed, headers, parameter_header, basic, read_header, address_bytes, density, erase_type, erase_types, timing, raw_times, volatility, extended, fields, no_params, size_fits, sizes_fit, density_fits, table_dwords, accepted, read_table, read_area, error_number, answer_number};
ghost use Rattle.sfdp.specs.Chosen.{capacity, lesser, sector_erase};

use dwords::{byte_at, dword_at};
use std::error::Error;
use std::fmt;

// Whether the part is addressed by three bytes, four, or either, each numbered by its code in dword 1.
#[derive(Clone, Copy)]
pub enum SFDPAddressBytes {
    Three = 0,
    ThreeOrFour = 1,
    Four = 2,
    Reserved = 3,
}

// One erase instruction. size 0: the table has none here, and every field is 0. timed: whether the times are known
// (µs); time_raw is the 7-bit field that they were decoded from.
#[derive(Clone, Copy, Default)]
pub struct SFDPEraseInst {
    pub opcode: u8,
    pub size: u32,
    pub timed: bool,
    pub time_typ: u32,
    pub time_max: u64,
    pub time_raw: u8,
}

// The four places that a table has for erase instructions.
#[derive(Clone, Copy)]
pub struct SFDPEraseInsts {
    pub inst1: SFDPEraseInst,
    pub inst2: SFDPEraseInst,
    pub inst3: SFDPEraseInst,
    pub inst4: SFDPEraseInst,
}

// How status register 1 is written, and whether it keeps its value, each numbered by its bit in dword 16 (Reserved: none of them).
#[derive(Clone, Copy)]
pub enum SFDPStatus1Volatility {
    NonVolatile06 = 1,
    Volatile06 = 2,
    Volatile50 = 4,
    NonVolatile06Volatile50 = 8,
    Mixed06 = 16,
    Reserved = 0,
}

// Times in µs, typical and maximum.
#[derive(Clone, Copy, Default)]
pub struct SFDPTiming {
    pub chip_erase_time_typ: u32,
    pub chip_erase_time_max: u64,
    pub first_byte_prog_time_typ: u32,
    pub first_byte_prog_time_max: u64,
    pub succ_byte_prog_time_typ: u32,
    pub succ_byte_prog_time_max: u64,
    pub page_prog_time_typ: u32,
    pub page_prog_time_max: u64,
}

// The fields that the times were decoded from: two multipliers and four times.
#[derive(Clone, Copy, Default)]
pub struct SFDPRawTimes {
    pub erase_multiplier: u8,
    pub prog_multiplier: u8,
    pub chip_erase: u8,
    pub first_byte_prog: u8,
    pub succ_byte_prog: u8,
    pub page_prog: u8,
}

// The basic parameter table. jesd216a: whether dwords 10 to 16 were read; where they were not, all that comes from
// them (timing, page_size and what follows it, the erase instructions' times) is unknown and holds 0, no or Reserved.
#[derive(Clone, Copy)]
pub struct FlashParams {
    pub version_major: u8,
    pub version_minor: u8,
    pub address_bytes: SFDPAddressBytes,
    pub density: u64,
    pub legacy_4kb_erase_supported: bool,
    pub legacy_4kb_erase_inst: u8,
    pub legacy_volatile_write_en_inst: u8,
    pub legacy_block_protect_volatile: bool,
    pub legacy_byte_write_granularity: bool,
    pub erase_insts: SFDPEraseInsts,
    pub jesd216a: bool,
    pub timing: SFDPTiming,
    pub raw: SFDPRawTimes,
    pub page_size: u32,
    pub busy_poll_flag: bool,
    pub busy_poll_status: bool,
    pub reset_inst_f0: bool,
    pub reset_inst_66_99: bool,
    pub status_1_vol: SFDPStatus1Volatility,
    pub exit_4byte_e9: bool,
    pub enter_4byte_b7: bool,
}

// A parameter header: what table it is of, its revision, its length in dwords and where it starts in the area.
#[derive(Clone, Copy)]
pub struct SFDPParameterHeader {
    pub parameter_id: u16,
    pub minor: u8,
    pub major: u8,
    pub plen: u8,
    pub ptp: u32,
}

// Why an area gives no parameters.
#[derive(Clone, Copy, Debug, PartialEq, Eq)]
pub enum SFDPError {
    NoSFDP,
    InvalidSFDPHeader,
    InvalidSFDPParams,
}

// The smallest erase instruction.
#[derive(Clone, Copy, Debug, PartialEq, Eq)]
pub struct SectorErase {
    pub size: u32,
    pub opcode: u8,
}

// ---- times, in µs

// A count in the low bits, plus 1, times the unit that the bits above choose; 0 where they choose none.
fn time_of(count_bits: u32, units: &[u32], raw: u8) -> u32
    requires few_bits { count_bits ≤ 5 }
    requires small_units { All (λ unit. unit ≤ 64000000) units.now }
    ensures { result ≡ time_of count_bits units.now raw }
{
    let count = raw % (1 << count_bits);
    match units.get((raw >> count_bits) as usize) {
        Some(unit) => (count as u32 + 1) * unit,
        None => 0,
    }
}

// The typical time of an erase instruction: units of 1, 16, 128 and 1,000 ms.
#[tactic(auto, unfolding(crate::specs::Times::erase_time))]
pub fn sector_erase_time(raw: u8) -> u32
    ensures { result ≡ erase_time raw }
{
    time_of(5, &[1_000, 16_000, 128_000, 1_000_000], raw)
}

// The typical time of a chip erase: units of 16, 256, 4,000 and 64,000 ms.
#[tactic(auto, unfolding(crate::specs::Times::chip_time))]
pub fn chip_erase_time(raw: u8) -> u32
    ensures { result ≡ chip_time raw }
{
    time_of(5, &[16_000, 256_000, 4_000_000, 64_000_000], raw)
}

// The typical time of a page: units of 8 and 64 µs.
#[tactic(auto, unfolding(crate::specs::Times::page_time))]
pub fn page_program_time(raw: u8) -> u32
    ensures { result ≡ page_time raw }
{
    time_of(5, &[8, 64], raw)
}

// The typical time of a byte: units of 1 and 8 µs.
#[tactic(auto, unfolding(crate::specs::Times::byte_time))]
pub fn byte_program_time(raw: u8) -> u32
    ensures { result ≡ byte_time raw }
{
    time_of(4, &[1, 8], raw)
}

// A maximum, from its multiplier and the typical time.
#[tactic(auto, using(crate::proofs::Laws::max_fits))]
pub fn max_time(multiplier: u8, typical: u32) -> u64
    ensures { result ≡ maximum multiplier typical }
{
    2 * (multiplier as u64 + 1) * typical as u64
}

// ---- dwords 1, 2, 8 to 11 and 16

// Bits hi:lo of a dword.
#[tactic(auto, using(crate::proofs::Laws::taken, crate::proofs::Laws::field_fits, crate::proofs::Laws::mask_some))]
fn bits(d: u32, hi: u32, lo: u32) -> u8
    requires { (lo ≤ hi) × (hi < 32) × (hi - lo < 8) }
    ensures { result ≡ bits d hi lo }
{
    let width = hi - lo + 1;
    ((d >> lo) % (1 << width)) as u8
}

// Whether a bit of a dword is set.
fn bit(d: u32, k: u32) -> bool
    requires { k < 32 }
    ensures { result ≡ bit d k }
{
    bits(d, k, k) == 1
}

impl From<u8> for SFDPAddressBytes {
    ghost from_gives = { λ code a. a ≡ address_bytes code };

    #[tactic(auto, unfolding(crate::specs::Jesd216::address_bytes))]
    fn from(code: u8) -> SFDPAddressBytes {
        match code {
            0 => SFDPAddressBytes::Three,
            1 => SFDPAddressBytes::ThreeOrFour,
            2 => SFDPAddressBytes::Four,
            _ => SFDPAddressBytes::Reserved,
        }
    }
}

#[tactic(auto, using(crate::proofs::Laws::lowest), unfolding(crate::specs::Jesd216::density_fits))]
fn density_fits(d2: u32) -> bool
    ensures { result ≡ density_fits d2 }
{
    d2 < 0x8000_0000 || d2 % 0x8000_0000 < 64
}

#[tactic(auto, using(crate::proofs::Laws::lowest, crate::proofs::Laws::low_density, crate::proofs::Laws::density_is_power), unfolding(crate::specs::Jesd216::density))]
fn density_of(d2: u32) -> u64
    requires { density_fits d2 ≡ true }
    ensures { result ≡ density d2 }
{
    if d2 < 0x8000_0000 {
        d2 as u64 + 1
    } else {
        1 << (d2 % 0x8000_0000)
    }
}

#[tactic(auto, unfolding(crate::specs::Jesd216::size_fits))]
fn size_fits(exponent: u8, opcode: u8) -> bool
    ensures { result ≡ size_fits exponent opcode }
{
    opcode == 0 || exponent < 32
}

#[tactic(auto, using(crate::proofs::Laws::lowest), unfolding(crate::specs::Jesd216::sizes_fit))]
fn sizes_fit(d: u32) -> bool
    ensures { result ≡ sizes_fit d }
{
    let [exponent_1, opcode_1, exponent_2, opcode_2] = d.to_le_bytes();
    size_fits(exponent_1, opcode_1) && size_fits(exponent_2, opcode_2)
}

// One erase instruction, with its times where dword 10 is known.
#[tactic(auto, using(crate::proofs::Laws::exponent_fits, crate::proofs::Laws::size_is_power), unfolding(crate::specs::Jesd216::erase_type))]
fn erase_inst(exponent: u8, opcode: u8, known: bool, multiplier: u8, raw: u8) -> SFDPEraseInst
    requires { size_fits exponent opcode ≡ true }
    ensures { result ≡ erase_type exponent opcode known multiplier raw }
{
    if exponent == 0 || opcode == 0 {
        return SFDPEraseInst::default();
    }
    let size = 1 << exponent;
    if !known {
        return SFDPEraseInst {
            opcode,
            size,
            ..SFDPEraseInst::default()
        };
    }
    let time_typ = sector_erase_time(raw);
    SFDPEraseInst {
        opcode,
        size,
        timed: true,
        time_typ,
        time_max: max_time(multiplier, time_typ),
        time_raw: raw,
    }
}

impl From<u8> for SFDPStatus1Volatility {
    ghost from_gives = { λ bits v. v ≡ volatility bits };

    #[tactic(auto, unfolding(crate::specs::Jesd216::volatility))]
    fn from(bits: u8) -> SFDPStatus1Volatility {
        match bits {
            1 => SFDPStatus1Volatility::NonVolatile06,
            2 => SFDPStatus1Volatility::Volatile06,
            4 => SFDPStatus1Volatility::Volatile50,
            8 => SFDPStatus1Volatility::NonVolatile06Volatile50,
            16 => SFDPStatus1Volatility::Mixed06,
            _ => SFDPStatus1Volatility::Reserved,
        }
    }
}

// ---- the table

// A value that is known, or 0.
#[tactic(auto, using(std::proofs::lemmas::Nat::one_shl))]
fn known_size(known: bool, exponent: u8) -> u32
    requires { exponent < 16 }
    ensures { result ≡ cond known (2 ^ exponent) 0 }
{
    if known { 1 << exponent } else { 0 }
}

// A bit that is known, or no.
fn known_bit(known: bool, bit: bool) -> bool
    ensures { result ≡ cond known bit false }
{
    known && bit
}

#[tactic(auto, unfolding(crate::specs::Jesd216::volatility))]
fn known_volatility(known: bool, bits: u8) -> SFDPStatus1Volatility
    ensures { result ≡ cond known (volatility bits) SFDPStatus1Volatility.Reserved }
{
    if known {
        SFDPStatus1Volatility::from(bits)
    } else {
        SFDPStatus1Volatility::Reserved
    }
}

fn write_enable_inst(bit: bool) -> u8
    ensures { result ≡ cond bit 6 80 }
{
    if bit { 0x06 } else { 0x50 }
}

// Whether dwords 10 to 16 are read.
#[tactic(auto, unfolding(crate::specs::Jesd216::extended))]
fn is_extended(minor: u8, plen: u8) -> bool
    ensures { result ≡ extended minor plen }
{
    16 <= plen && 5 <= minor
}

// Whether no field of the table is refused.
#[tactic(auto, unfolding(crate::specs::Jesd216::accepted))]
fn is_accepted(plen: u8, data: &[u8]) -> bool
    ensures { result ≡ accepted plen «data».now }
{
    9 <= plen
        && sizes_fit(dword_at(data, 8))
        && sizes_fit(dword_at(data, 9))
        && density_fits(dword_at(data, 2))
}

// The dwords of a table that parameters come from.
#[derive(Clone, Copy, Default)]
struct TableDwords {
    d1: u32,
    d2: u32,
    d8: u32,
    d9: u32,
    d10: u32,
    d11: u32,
    d14: u32,
    d16: u32,
}

impl TableDwords {
    fn read(data: &[u8]) -> TableDwords
        ensures { result ≡ table_dwords «data».now }
    {
        TableDwords {
            d1: dword_at(data, 1),
            d2: dword_at(data, 2),
            d8: dword_at(data, 8),
            d9: dword_at(data, 9),
            d10: dword_at(data, 10),
            d11: dword_at(data, 11),
            d14: dword_at(data, 14),
            d16: dword_at(data, 16),
        }
    }

    // The erase instructions of dwords 8 to 10.
    #[tactic(auto, using(crate::proofs::Laws::first_low_fits, crate::proofs::Laws::second_fits), unfolding(crate::specs::Jesd216::erase_types))]
    #[inline(always)]
    fn erase_insts(self, known: bool) -> SFDPEraseInsts
        requires { (sizes_fit self.d8 ≡ true) × (sizes_fit self.d9 ≡ true) }
        ensures { result ≡ erase_types self.d8 self.d9 known self.d10 }
    {
        let [exponent_1, opcode_1, exponent_2, opcode_2] = self.d8.to_le_bytes();
        let [exponent_3, opcode_3, exponent_4, opcode_4] = self.d9.to_le_bytes();
        let d10 = self.d10;
        let m = bits(d10, 3, 0);
        SFDPEraseInsts {
            inst1: erase_inst(exponent_1, opcode_1, known, m, bits(d10, 10, 4)),
            inst2: erase_inst(exponent_2, opcode_2, known, m, bits(d10, 17, 11)),
            inst3: erase_inst(exponent_3, opcode_3, known, m, bits(d10, 24, 18)),
            inst4: erase_inst(exponent_4, opcode_4, known, m, bits(d10, 31, 25)),
        }
    }

    // The raw time fields of dwords 10 and 11.
    #[tactic(auto, unfolding(crate::specs::Jesd216::raw_times))]
    fn raw_times(self, known: bool) -> SFDPRawTimes
        ensures { result ≡ raw_times known self.d10 self.d11 }
    {
        if !known {
            return SFDPRawTimes::default();
        }
        SFDPRawTimes {
            erase_multiplier: bits(self.d10, 3, 0),
            prog_multiplier: bits(self.d11, 3, 0),
            chip_erase: bits(self.d11, 30, 24),
            first_byte_prog: bits(self.d11, 18, 14),
            succ_byte_prog: bits(self.d11, 23, 19),
            page_prog: bits(self.d11, 13, 8),
        }
    }

    // The times of dword 11; the chip erase's maximum is by dword 10's multiplier.
    #[tactic(auto, unfolding(crate::specs::Jesd216::timing))]
    fn times(self, known: bool) -> SFDPTiming
        ensures { result ≡ timing known self.d10 self.d11 }
    {
        if !known {
            return SFDPTiming::default();
        }
        let m = bits(self.d11, 3, 0);
        let chip = chip_erase_time(bits(self.d11, 30, 24));
        let first = byte_program_time(bits(self.d11, 18, 14));
        let succ = byte_program_time(bits(self.d11, 23, 19));
        let page = page_program_time(bits(self.d11, 13, 8));
        SFDPTiming {
            chip_erase_time_typ: chip,
            chip_erase_time_max: max_time(bits(self.d10, 3, 0), chip),
            first_byte_prog_time_typ: first,
            first_byte_prog_time_max: max_time(m, first),
            succ_byte_prog_time_typ: succ,
            succ_byte_prog_time_max: max_time(m, succ),
            page_prog_time_typ: page,
            page_prog_time_max: max_time(m, page),
        }
    }

    // The parameters of an accepted table (known: whether dwords 10 to 16 are read). Inlined, as are its erase instructions: those of no table are
    // numbers of the compiled code, which every session without parameters would else work out anew.
    #[tactic(auto, unfolding(crate::specs::Jesd216::fields))]
    #[inline(always)]
    fn params(self, minor: u8, known: bool) -> FlashParams
        requires { (density_fits self.d2 ≡ true) × (sizes_fit self.d8 ≡ true) × (sizes_fit self.d9 ≡ true) }
        ensures { result ≡ fields minor known self.d1 self.d2 self.d8 self.d9 self.d10 self.d11 self.d14 self.d16 }
    {
        FlashParams {
            version_major: 1,
            version_minor: minor,
            address_bytes: SFDPAddressBytes::from(bits(self.d1, 18, 17)),
            density: density_of(self.d2),
            legacy_4kb_erase_supported: bits(self.d1, 1, 0) == 1,
            legacy_4kb_erase_inst: bits(self.d1, 15, 8),
            legacy_volatile_write_en_inst: write_enable_inst(bit(self.d1, 4)),
            legacy_block_protect_volatile: bit(self.d1, 3),
            legacy_byte_write_granularity: bit(self.d1, 2),
            erase_insts: self.erase_insts(known),
            jesd216a: known,
            timing: self.times(known),
            raw: self.raw_times(known),
            page_size: known_size(known, bits(self.d11, 7, 4)),
            busy_poll_flag: known_bit(known, bit(self.d14, 3)),
            busy_poll_status: known_bit(known, bit(self.d14, 2)),
            reset_inst_f0: known_bit(known, bit(self.d16, 11)),
            reset_inst_66_99: known_bit(known, bit(self.d16, 12)),
            status_1_vol: known_volatility(known, bits(self.d16, 4, 0)),
            exit_4byte_e9: known_bit(known, bit(self.d16, 14)),
            enter_4byte_b7: known_bit(known, bit(self.d16, 24)),
        }
    }
}

impl FlashParams {
    // The table of plen dwords that data starts with, by its header's minor number.
    #[tactic(auto, using(crate::proofs::Laws::dense, crate::proofs::Laws::sizes_8, crate::proofs::Laws::sizes_9), unfolding(crate::specs::Jesd216::read_table, crate::specs::Jesd216::params))]
    pub fn from_bytes(minor: u8, plen: u8, data: &[u8]) -> Result<FlashParams, SFDPError>
        ensures { result ≡ read_table minor plen «data».now }
    {
        if is_accepted(plen, data) {
            Ok(TableDwords::read(data).params(minor, is_extended(minor, plen)))
        } else {
            Err(SFDPError::InvalidSFDPParams)
        }
    }

    // What stands in the place of parameters until some were read.
    #[tactic(auto, unfolding(crate::specs::Jesd216::density_fits, crate::specs::Jesd216::sizes_fit, crate::specs::Jesd216::size_fits))]
    pub fn none() -> FlashParams
        ensures { result ≡ no_params }
    {
        TableDwords::default().params(0, false)
    }

    // The flash capacity in bytes.
    pub fn capacity_bytes(self) -> u64
        ensures { result ≡ capacity self }
    {
        self.density / 8
    }

    // The smallest erase size and its opcode, of one size the lowest opcode.
    #[tactic(auto, unfolding(crate::specs::Chosen::sector_erase, crate::specs::Chosen::smallest))]
    pub fn sector_erase(self) -> Option<SectorErase>
        ensures { result ≡ sector_erase self.erase_insts }
    {
        let s = self.erase_insts;
        let least = lesser_of(lesser_of(lesser_of(s.inst1, s.inst2), s.inst3), s.inst4);
        (least.size != 0).then_some(SectorErase {
            size: least.size,
            opcode: least.opcode,
        })
    }

    // Whether 4 KiB erase is supported, with an opcode that is not FF.
    #[tactic(auto, using(std::proofs::lemmas::Bool::Decides::nat_tests))]
    pub fn usable_4k(self) -> bool
        ensures { result ≡ (self.legacy_4kb_erase_supported && not (eqb self.legacy_4kb_erase_inst 0xFF)) }
    {
        self.legacy_4kb_erase_supported && self.legacy_4kb_erase_inst != 0xFF
    }
}

// Of two erase instructions the one with the smaller size, of one size with the lower opcode, else the first.
#[tactic(auto, unfolding(crate::specs::Chosen::lesser, crate::specs::Chosen::below))]
fn lesser_of(a: SFDPEraseInst, b: SFDPEraseInst) -> SFDPEraseInst
    ensures { result ≡ lesser a b }
{
    if b.size == 0 {
        return a;
    }
    if a.size == 0 || (b.size, b.opcode) < (a.size, a.opcode) {
        return b;
    }
    a
}

// ---- the headers

// How many parameter headers the area has, from its first 8 bytes.
pub fn header_count(data: &[u8]) -> u16
    ensures { result ≡ headers «data».now }
{
    byte_at(data, 6) as u16 + 1
}

#[tactic(auto, using(crate::proofs::Laws::signature))]
fn is_signed(data: &[u8]) -> bool
    ensures { result ≡ signed «data».now }
{
    data.starts_with(b"SFDP")
}

impl SFDPParameterHeader {
    // The parameter header that starts at a byte.
    #[tactic(auto, unfolding(crate::specs::Jesd216::parameter_header))]
    pub fn from_bytes(data: &[u8], at: u16) -> SFDPParameterHeader
        ensures { result ≡ parameter_header «data».now at }
    {
        let i = at as usize;
        let byte = |k: u8| byte_at(data, i + k as usize);
        SFDPParameterHeader {
            parameter_id: u16::from_le_bytes([byte(0), byte(7)]),
            minor: byte(1),
            major: byte(2),
            plen: byte(3),
            ptp: u32::from_le_bytes([byte(4), byte(5), byte(6), 0]),
        }
    }

    // Whether it is that of the basic parameter table, major 1.
    #[tactic(auto, unfolding(crate::specs::Jesd216::basic))]
    pub fn is_basic(self) -> bool
        ensures { result ≡ basic self }
    {
        self.parameter_id == 0xFF00 && self.major == 1
    }
}

// The signature and the first parameter header.
#[tactic(auto, unfolding(crate::specs::Jesd216::read_header))]
pub fn read_header(data: &[u8]) -> Result<SFDPParameterHeader, SFDPError>
    ensures { result ≡ read_header «data».now }
{
    if !is_signed(data) {
        return Err(SFDPError::NoSFDP);
    }
    let h = SFDPParameterHeader::from_bytes(data, 8);
    if !h.is_basic() {
        return Err(SFDPError::InvalidSFDPHeader);
    }
    Ok(h)
}

// The bytes from a place on; none where the place is past the end.
fn bytes_from(data: &[u8], at: u32) -> &[u8]
    ensures { result.now ≡ drop at «data».now }
{
    &data[data.len().min(at as usize)..]
}

// A whole SFDP area, as bytes from address 0 on.
#[tactic(auto, unfolding(crate::specs::Jesd216::read_area))]
pub fn read_area(area: &[u8]) -> Result<FlashParams, SFDPError>
    ensures { result ≡ read_area area.now }
{
    let h = read_header(area)?;
    FlashParams::from_bytes(h.minor, h.plen, bytes_from(area, h.ptp))
}

// ---- the answer numbers of docs/SCOPE.md

impl SFDPError {
    pub fn number(self) -> u8
        ensures { result ≡ error_number self }
    {
        match self {
            SFDPError::NoSFDP => 12,
            SFDPError::InvalidSFDPHeader => 3,
            SFDPError::InvalidSFDPParams => 4,
        }
    }
}

impl fmt::Display for SFDPError {
    fn fmt<W: fmt::Write>(&self, f: &mut fmt::Formatter<W>) -> fmt::Result {
        f.write_str(match self {
            SFDPError::NoSFDP => { "no SFDP signature; set the part's size and erase type by hand" }
            SFDPError::InvalidSFDPHeader => {
                "the first parameter header is not the basic table, major 1"
            }
            SFDPError::InvalidSFDPParams => {
                "fewer than 9 dwords, or a size or density out of range"
            }
        })
    }
}

impl Error for SFDPError {}

// The number of an answer: 0 for parameters, else the refusal's.
pub fn answer_number(r: Result<FlashParams, SFDPError>) -> u8
    ensures { result ≡ answer_number r }
{
    match r {
        Ok(_) => 0,
        Err(e) => e.number(),
    }
}

// The SFDP area of an emulated part, written from its parameters: header, one parameter header, a basic parameter table of 16 dwords.
// Parameters that no such table gives back exactly are refused, and the lent buffer is then left as it was.
#![tactic(auto)]

ghost use Rattle.std.specs.Prelude.{◌≡◌, cond, ◌||◌, ◌∷◌, ◌++◌, ◌-◌, ◌≤◌, ◌<◌, eqb, length, drop};
ghost use Rattle.sfdp_write.specs.Table.{placed, dword1, dword2, size_field, types_dword, times_dword, dword11, dword14, dword16, dwords_of, bytes_of};
ghost use Rattle.sfdp_write.specs.Form.{density_formed, time_formed, none_formed, one_formed, type_formed, types_formed, raw_formed, timing_formed, page_formed, first_formed, rest_formed, formed};
ghost use Rattle.sfdp_write.specs.Written.{answer_to, written, answer_number};
ghost use Rattle.sfdp_write.specs.Promises.{Widths};

use sfdp::{
    FlashParams, SFDPAddressBytes, SFDPEraseInst, SFDPEraseInsts, SFDPRawTimes,
    SFDPStatus1Volatility, SFDPTiming, byte_program_time, chip_erase_time, max_time,
    page_program_time, sector_erase_time,
};

// Why nothing is written: no form, refusal 15; or too little room, 11, with the bytes that are needed.
#[derive(Clone, Copy, Debug, PartialEq, Eq)]
pub enum WriteError {
    NoForm,
    NoRoom(u64),
}

// ---- whether the parameters have an exact form

#[tactic(auto, using(crate::proofs::Powers::count_power), unfolding(crate::specs::Form::density_formed))]
fn is_density(n: u64) -> bool
    ensures { result ≡ density_formed n }
{
    if n <= 2_147_483_648 {
        0 < n
    } else {
        n.count_ones() == 1
    }
}

// Whether a typical time and its maximum are those of the field.
#[tactic(auto, unfolding(crate::specs::Form::time_formed))]
fn is_time(multiplier: u8, time: u32, typical: u32, most: u64) -> bool
    ensures { result ≡ time_formed multiplier time typical most }
{
    typical == time && most == max_time(multiplier, time)
}

// Whether a place without an erase type is all zeros.
#[tactic(auto, unfolding(crate::specs::Form::none_formed))]
fn is_none(i: SFDPEraseInst) -> bool
    ensures { result ≡ none_formed i }
{
    i.opcode == 0 && !i.timed && i.time_typ == 0 && i.time_max == 0 && i.time_raw == 0
}

// Whether a place with an erase type has an exact form.
#[tactic(auto, using(crate::proofs::Powers::count_power), unfolding(crate::specs::Form::one_formed))]
fn is_one(multiplier: u8, i: SFDPEraseInst) -> bool
    ensures { result ≡ one_formed multiplier i }
{
    i.size.count_ones() == 1
        && 1 < i.size
        && 0 < i.opcode
        && i.timed
        && i.time_raw < 128
        && is_time(
            multiplier,
            sector_erase_time(i.time_raw),
            i.time_typ,
            i.time_max,
        )
}

#[tactic(auto, unfolding(crate::specs::Form::type_formed))]
fn is_type(multiplier: u8, i: SFDPEraseInst) -> bool
    ensures { result ≡ type_formed multiplier i }
{
    if i.size == 0 {
        is_none(i)
    } else {
        is_one(multiplier, i)
    }
}

#[tactic(auto, unfolding(crate::specs::Form::types_formed))]
fn are_types(multiplier: u8, s: SFDPEraseInsts) -> bool
    ensures { result ≡ types_formed multiplier s }
{
    is_type(multiplier, s.inst1)
        && is_type(multiplier, s.inst2)
        && is_type(multiplier, s.inst3)
        && is_type(multiplier, s.inst4)
}

// Whether the raw time fields have their widths.
#[tactic(auto, unfolding(crate::specs::Form::raw_formed))]
fn is_raw(r: SFDPRawTimes) -> bool
    ensures { result ≡ raw_formed r }
{
    r.erase_multiplier < 16
        && r.prog_multiplier < 16
        && r.chip_erase < 128
        && r.first_byte_prog < 32
        && r.succ_byte_prog < 32
        && r.page_prog < 64
}

// Whether the times are those of the raw fields.
#[tactic(auto, unfolding(crate::specs::Form::timing_formed))]
fn is_timing(r: SFDPRawTimes, t: SFDPTiming) -> bool
    ensures { result ≡ timing_formed r t }
{
    let e = r.erase_multiplier;
    let m = r.prog_multiplier;
    is_time(
        e,
        chip_erase_time(r.chip_erase),
        t.chip_erase_time_typ,
        t.chip_erase_time_max,
    ) && is_time(
        m,
        byte_program_time(r.first_byte_prog),
        t.first_byte_prog_time_typ,
        t.first_byte_prog_time_max,
    ) && is_time(
        m,
        byte_program_time(r.succ_byte_prog),
        t.succ_byte_prog_time_typ,
        t.succ_byte_prog_time_max,
    ) && is_time(
        m,
        page_program_time(r.page_prog),
        t.page_prog_time_typ,
        t.page_prog_time_max,
    )
}

#[tactic(auto, using(crate::proofs::Powers::count_power), unfolding(crate::specs::Form::page_formed))]
fn is_page(n: u32) -> bool
    ensures { result ≡ page_formed n }
{
    n.count_ones() == 1 && n <= 32_768
}

fn is_write_enable(opcode: u8) -> bool
    ensures { result ≡ eqb opcode 0x06 || eqb opcode 0x50 }
{
    opcode == 0x06 || opcode == 0x50
}

// Dwords 1 and 2.
#[tactic(auto, unfolding(crate::specs::Form::first_formed, crate::specs::Table::address_code))]
fn is_first(p: FlashParams) -> bool
    ensures { result ≡ first_formed p }
{
    p.version_major == 1
        && is_write_enable(p.legacy_volatile_write_en_inst)
        && !matches!(p.address_bytes, SFDPAddressBytes::Reserved)
        && is_density(p.density)
}

// Dwords 8 to 16.
#[tactic(auto, unfolding(crate::specs::Form::rest_formed, crate::specs::Table::volatility_code))]
fn is_rest(p: FlashParams) -> bool
    ensures { result ≡ rest_formed p }
{
    p.jesd216a
        && !matches!(p.status_1_vol, SFDPStatus1Volatility::Reserved)
        && is_page(p.page_size)
        && is_raw(p.raw)
        && is_timing(p.raw, p.timing)
        && are_types(p.raw.erase_multiplier, p.erase_insts)
}

#[tactic(auto, unfolding(crate::specs::Form::formed))]
fn is_formed(p: FlashParams) -> bool
    ensures { result ≡ formed p }
{
    is_first(p) && is_rest(p)
}

// ---- the dwords

// A number in bits hi:lo.
#[tactic(auto, using(crate::proofs::Placing::shifted))]
fn place(x: u32, hi: u32, lo: u32) -> u32
    requires { (lo ≤ hi) × (hi < 32) × (hi - lo < 31) }
    ensures { result ≡ placed hi lo x }
{
    let width = hi - lo + 1;
    x % (1 << width) << lo
}

fn support_code(supported: bool) -> u32
    ensures { result ≡ cond supported 1 3 }
{
    if supported { 1 } else { 3 }
}

#[tactic(auto, using(crate::proofs::Placing::as_mark), unfolding(crate::specs::Table::dword1, crate::specs::Table::address_code))]
fn dword_1(p: FlashParams) -> u32
    ensures { result ≡ dword1 p }
{
    place(support_code(p.legacy_4kb_erase_supported), 1, 0)
        + place(p.legacy_byte_write_granularity as u32, 2, 2)
        + place(p.legacy_block_protect_volatile as u32, 3, 3)
        + place((p.legacy_volatile_write_en_inst == 0x06) as u32, 4, 4)
        + place(p.legacy_4kb_erase_inst as u32, 15, 8)
        + place(p.address_bytes as u32, 18, 17)
}

#[tactic(auto, unfolding(crate::specs::Table::dword2))]
fn dword_2(density: u64) -> u32
    requires { 0 < density }
    ensures { result ≡ dword2 density }
{
    if density <= 2_147_483_648 {
        place((density - 1) as u32, 30, 0)
    } else {
        place(density.trailing_zeros(), 30, 0) + place(1, 31, 31)
    }
}

// The exponent of an erase type's size, 0 where there is none.
#[tactic(auto, unfolding(crate::specs::Table::size_field))]
fn size_field(size: u32) -> u32
    ensures { result ≡ size_field size }
{
    if size == 0 { 0 } else { size.trailing_zeros() }
}

// Dwords 8 and 9.
#[tactic(auto, unfolding(crate::specs::Table::types_dword))]
fn types_dword(a: SFDPEraseInst, b: SFDPEraseInst) -> u32
    ensures { result ≡ types_dword a b }
{
    place(size_field(a.size), 7, 0)
        + place(a.opcode as u32, 15, 8)
        + place(size_field(b.size), 23, 16)
        + place(b.opcode as u32, 31, 24)
}

// Dword 10.
#[tactic(auto, unfolding(crate::specs::Table::dword10))]
fn times_dword(multiplier: u8, s: SFDPEraseInsts) -> u32
    ensures { result ≡ times_dword multiplier s }
{
    place(multiplier as u32, 3, 0)
        + place(s.inst1.time_raw as u32, 10, 4)
        + place(s.inst2.time_raw as u32, 17, 11)
        + place(s.inst3.time_raw as u32, 24, 18)
        + place(s.inst4.time_raw as u32, 31, 25)
}

#[tactic(auto, unfolding(crate::specs::Table::dword11))]
fn dword_11(page: u32, r: SFDPRawTimes) -> u32
    ensures { result ≡ dword11 page r }
{
    place(r.prog_multiplier as u32, 3, 0)
        + place(page.trailing_zeros(), 7, 4)
        + place(r.page_prog as u32, 13, 8)
        + place(r.first_byte_prog as u32, 18, 14)
        + place(r.succ_byte_prog as u32, 23, 19)
        + place(r.chip_erase as u32, 30, 24)
}

#[tactic(auto, unfolding(crate::specs::Table::dword14))]
fn dword_14(p: FlashParams) -> u32
    ensures { result ≡ dword14 p }
{
    place(p.busy_poll_status as u32, 2, 2) + place(p.busy_poll_flag as u32, 3, 3)
}

#[tactic(auto, unfolding(crate::specs::Table::dword16, crate::specs::Table::volatility_code))]
fn dword_16(p: FlashParams) -> u32
    ensures { result ≡ dword16 p }
{
    place(p.status_1_vol as u32, 4, 0)
        + place(p.reset_inst_f0 as u32, 11, 11)
        + place(p.reset_inst_66_99 as u32, 12, 12)
        + place(p.exit_4byte_e9 as u32, 14, 14)
        + place(p.enter_4byte_b7 as u32, 24, 24)
}

// ---- the area

// The header's four dwords, and the table's 16.
#[tactic(auto, unfolding(crate::specs::Table::dwords_of))]
fn area_dwords(p: FlashParams) -> [u32; 20]
    requires { 0 < p.density }
    ensures { result ≡ 0x50444653 ∷ 0xFF000106 ∷ 0x10010600 ∷ 0xFF000010 ∷ dwords_of p }
{
    let s = p.erase_insts;
    [
        0x5044_4653,
        0xFF00_0106,
        0x1001_0600,
        0xFF00_0010,
        dword_1(p),
        dword_2(p.density),
        0,
        0,
        0,
        0,
        0,
        types_dword(s.inst1, s.inst2),
        types_dword(s.inst3, s.inst4),
        times_dword(p.raw.erase_multiplier, s),
        dword_11(p.page_size, p.raw),
        0,
        0,
        dword_14(p),
        0,
        dword_16(p),
    ]
}

// Writes dwords over the front of the buffer, each one's lowest byte first.
// By index: over chunks_exact_mut, zipped with the dwords, the proof of what the buffer holds afterwards did not close.
fn store(out: &mut [u8], w: &[u32])
    requires { (80 ≤ length out.old) × (length w.now ≡ 20) }
    ensures { out.new ≡ bytes_of w.now ++ drop 80 out.old }
{
    for (i, d) in w.iter().enumerate() {
        out[4 * i..4 * i + 4].copy_from_slice(&d.to_le_bytes());
    }
}

// Writes the 80 bytes of an SFDP area with these parameters, as revision 1.6 and with the minor 6. (Widths is what the types of the parameters
// say; with it all of specs/Promises.antt holds of every call.)
pub fn write_table(p: FlashParams, out: &mut [u8]) -> Result<(), WriteError>
    ensures { (result ≡ answer_to p out.old) × (out.new ≡ written p out.old) × Widths p }
{
    if !is_formed(p) {
        return Err(WriteError::NoForm);
    }
    if out.len() < 80 {
        return Err(WriteError::NoRoom(80));
    }
    store(out, &area_dwords(p));
    Ok(())
}

// The number of an answer: 0 for a table that was written, else the refusal's.
pub fn answer_number(r: Result<(), WriteError>) -> u8
    ensures { result ≡ answer_number r }
{
    match r {
        Ok(()) => 0,
        Err(WriteError::NoForm) => 15,
        Err(WriteError::NoRoom(_)) => 11,
    }
}

// What a host may ask besides running a command: the parameters that a table gave, as plain numbers, and the span of a program.
#![tactic(auto)]

ghost use Rattle.std.specs.Prelude.{◌≡◌, ◌-◌, [], ◌∷◌};
ghost use Rattle.questions.specs.Shown.{volatility_code, type_head, head_word, marks_word, page_word, params_words, shown_words};
ghost use Rattle.questions.specs.Spans.{limited, spanned_of};

use erase_plan::Surveyed;
use plans::{PlanError, PlanQuery};
use settings::Settings;
use sfdp::{FlashParams, SFDPEraseInst, SFDPStatus1Volatility, SFDPTiming};

// ---- the parameters as 24 numbers of 64 bits

// The numbers of the record, which stay whatever numbers the enum itself has. The packed session has the same by a function of its
// own: neither crate stands on the other, and they are no numbers of SFDP's.
fn volatility_code(v: SFDPStatus1Volatility) -> u8
    ensures { result ≡ volatility_code v }
{
    match v {
        SFDPStatus1Volatility::NonVolatile06 => 0,
        SFDPStatus1Volatility::Volatile06 => 1,
        SFDPStatus1Volatility::Volatile50 => 2,
        SFDPStatus1Volatility::NonVolatile06Volatile50 => 3,
        SFDPStatus1Volatility::Mixed06 => 4,
        SFDPStatus1Volatility::Reserved => 5,
    }
}

// Known, and what the header and dword 1 say.
fn head_word(p: FlashParams) -> u64
    ensures { result ≡ head_word p }
{
    u64::from_le_bytes([
        1,
        u8::from(p.jesd216a),
        p.version_major,
        p.version_minor,
        p.address_bytes as u8,
        u8::from(p.legacy_4kb_erase_supported),
        p.legacy_4kb_erase_inst,
        p.legacy_volatile_write_en_inst,
    ])
}

// The yes-or-no marks.
fn marks_word(p: FlashParams) -> u64
    ensures { result ≡ marks_word p }
{
    u64::from_le_bytes([
        u8::from(p.legacy_block_protect_volatile),
        u8::from(p.legacy_byte_write_granularity),
        u8::from(p.busy_poll_flag),
        u8::from(p.busy_poll_status),
        u8::from(p.reset_inst_f0),
        u8::from(p.reset_inst_66_99),
        u8::from(p.exit_4byte_e9),
        u8::from(p.enter_4byte_b7),
    ])
}

// The page size from byte 4 on: a sum, since from_le_bytes would first take the size apart.
fn page_word(p: FlashParams) -> u64
    ensures { result ≡ page_word p }
{
    volatility_code(p.status_1_vol) as u64 + 0x1_0000_0000 * (p.page_size as u64)
}

// Opcode, whether the times are known, size: a sum as well.
fn type_head(i: SFDPEraseInst) -> u64
    ensures { result ≡ type_head i }
{
    i.opcode as u64 + 256 * (u8::from(i.timed) as u64) + 0x1_0000_0000 * (i.size as u64)
}

// An erase type with its typical and its maximum time.
fn type_words(i: SFDPEraseInst) -> [u64; 3]
    ensures { result ≡ type_head i ∷ i.time_typ ∷ i.time_max ∷ [] }
{
    [type_head(i), i.time_typ as u64, i.time_max]
}

fn timing_words(t: SFDPTiming) -> [u64; 8]
    ensures { result ≡ t.page_prog_time_typ ∷ t.page_prog_time_max ∷ t.chip_erase_time_typ ∷ t.chip_erase_time_max ∷ t.first_byte_prog_time_typ ∷ t.first_byte_prog_time_max ∷ t.succ_byte_prog_time_typ ∷ t.succ_byte_prog_time_max ∷ [] }
{
    [
        t.page_prog_time_typ as u64,
        t.page_prog_time_max,
        t.chip_erase_time_typ as u64,
        t.chip_erase_time_max,
        t.first_byte_prog_time_typ as u64,
        t.first_byte_prog_time_max,
        t.succ_byte_prog_time_typ as u64,
        t.succ_byte_prog_time_max,
    ]
}

fn params_words(p: FlashParams) -> [u64; 24]
    ensures { result ≡ params_words p }
{
    let insts = p.erase_insts;
    let mut w = [0u64; 24];
    w[..4].copy_from_slice(&[head_word(p), marks_word(p), page_word(p), p.density]);
    w[4..7].copy_from_slice(&type_words(insts.inst1));
    w[7..10].copy_from_slice(&type_words(insts.inst2));
    w[10..13].copy_from_slice(&type_words(insts.inst3));
    w[13..16].copy_from_slice(&type_words(insts.inst4));
    w[16..].copy_from_slice(&timing_words(p.timing));
    w
}

// The numbers; all 0 without parameters.
pub fn shown_words(known: bool, p: FlashParams) -> [u64; 24]
    ensures { result ≡ shown_words known p }
{
    if known { params_words(p) } else { [0; 24] }
}

// ---- the span of a program

// The addresses that a program would erase and write again: the first, and how many.
#[derive(Clone, Copy)]
pub struct Span {
    pub first: u32,
    pub len: u64,
}

// A span that passes the limits is 5 with its last address.
#[tactic(auto, unfolding(crate::specs::Spans::limited))]
fn within(x: Settings, span: Surveyed) -> Result<Span, PlanError>
    ensures { result ≡ limited x span.first (span.end - span.first) }
{
    let len = span.end.saturating_sub(span.first as u64);
    x.check_address_length(span.first, len)?;
    Ok(Span {
        first: span.first,
        len,
    })
}

// The refusals of a program in their order, 5, 7, 5; else the span.
#[tactic(auto, using(plans::proofs::Found::range_some, plans::proofs::Found::range_32, crate::proofs::Laws::span_known), unfolding(crate::specs::Spans::spanned_of, plans::specs::Planned::types_for))]
pub fn span_for(q: PlanQuery) -> Result<Span, PlanError>
    ensures { result ≡ spanned_of q }
{
    let x = q.settings;
    x.check_address_length(q.address, q.length)?;
    let types = plans::erase_types(x, q.known, q.params);
    if plans::is_empty(types) {
        return Err(PlanError::NoEraseInstruction);
    }
    let last = (q.address as u64 + (q.length - 1)) as u32;
    within(x, erase_plan::survey(types, q.address, last))
}

// The plan of an erase, as the driver is asked for it: the erase types of the settings and the parameters, refusals, and the
// entries written into slots that the caller lends.
#![tactic(auto)]

ghost use Rattle.std.specs.Prelude.{◌≡◌, eqb, length, ◌++◌};
ghost use Rattle.erase_plan.specs.Types.{present};
ghost use Rattle.plans.specs.Available.{type_of, single, of_params, no_insts, of_settings, available};
ghost use Rattle.plans.specs.Planned.{error_number, planned_of, written_of};
ghost use Rattle.plans.specs.Cursors.{ahead, begun_of, step_of, Kept};

use erase_plan::{EraseEntry, EraseType, EraseTypes};
use settings::{BadRange, Settings};
use sfdp::{FlashParams, SFDPEraseInst, SFDPEraseInsts};

// What a plan is asked for. known: whether there are parameters.
#[derive(Clone, Copy)]
pub struct PlanQuery {
    pub settings: Settings,
    pub known: bool,
    pub params: FlashParams,
    pub address: u32,
    pub length: u64,
}

// Why there is no plan: the range is not accepted, there is no erase type, or more entries than slots are needed, so many.
#[derive(Clone, Copy)]
pub enum PlanError {
    InvalidAddress(BadRange),
    NoEraseInstruction,
    NoRoom(u64),
}

impl PlanError {
    // The answer's number.
    pub fn number(self) -> u8
        ensures { result ≡ error_number self }
    {
        match self {
            PlanError::InvalidAddress(_) => 5,
            PlanError::NoEraseInstruction => 7,
            PlanError::NoRoom(_) => 11,
        }
    }
}

impl From<BadRange> for PlanError {
    ghost use Rattle.plans.specs.declared.PlanError.TheVariants as PlanError;

    ghost from_gives = { λ report e. e ≡ PlanError.InvalidAddress report };

    fn from(report: BadRange) -> PlanError {
        PlanError::InvalidAddress(report)
    }
}

// A place in a plan: its types, the address that the next entry is for, the range's last address, and whether the address is known to be a
// multiple of every size, as it is after the first entry.
#[derive(Clone, Copy)]
pub struct Cursor {
    pub types: EraseTypes,
    pub at: u32,
    pub last: u32,
    pub later: bool,
}

// The entry at a cursor, and the cursor past it, where the plan goes on.
#[derive(Clone, Copy)]
pub struct Step {
    pub entry: EraseEntry,
    pub next: Option<Cursor>,
}

// ---- the erase types

// An erase instruction as a type, with its typical time. No From: neither type is of this crate.
fn type_of(i: SFDPEraseInst) -> EraseType
    ensures { result ≡ type_of i }
{
    EraseType {
        size: i.size,
        opcode: i.opcode,
        timed: i.timed,
        time: i.time_typ,
    }
}

// One type, its time unknown.
fn single_type(size: u32, opcode: u8) -> EraseTypes
    ensures { result ≡ single size opcode }
{
    let one = EraseType {
        size,
        opcode,
        timed: false,
        time: 0,
    };
    EraseTypes {
        slots: [one, EraseType::NONE, EraseType::NONE, EraseType::NONE],
    }
}

// The types of the parameters, sorted.
#[tactic(auto, unfolding(crate::specs::Available::of_params))]
fn of_params(s: SFDPEraseInsts) -> EraseTypes
    ensures { result ≡ of_params s }
{
    erase_plan::sorted(
        type_of(s.inst1),
        type_of(s.inst2),
        type_of(s.inst3),
        type_of(s.inst4),
    )
}

// Whether the parameters have no type.
#[tactic(auto, unfolding(crate::specs::Available::all_zero))]
fn no_insts(s: SFDPEraseInsts) -> bool
    ensures { result ≡ no_insts s }
{
    s.inst1.size == 0 && s.inst2.size == 0 && s.inst3.size == 0 && s.inst4.size == 0
}

// The erase size setting as the only type; none where it is not set.
#[tactic(auto, unfolding(crate::specs::Available::of_settings))]
fn of_settings(s: Settings) -> EraseTypes
    ensures { result ≡ of_settings s }
{
    if s.erase_size == 0 {
        EraseTypes {
            slots: [EraseType::NONE; 4],
        }
    } else {
        single_type(s.erase_size, s.erase_opcode)
    }
}

// The types to plan with: those of the parameters if any, else 4 KiB, else the erase size setting.
#[tactic(auto, unfolding(crate::specs::Available::available, crate::specs::Available::usable_4k))]
pub fn erase_types(s: Settings, known: bool, p: FlashParams) -> EraseTypes
    ensures { result ≡ available s known p }
{
    if known && !no_insts(p.erase_insts) {
        of_params(p.erase_insts)
    } else if known && p.usable_4k() {
        single_type(4096, p.legacy_4kb_erase_inst)
    } else {
        of_settings(s)
    }
}

// ---- the plan's start

// Whether there is no type.
pub fn is_empty(ts: EraseTypes) -> bool
    ensures { result ≡ eqb (length (present ts)) 0 }
{
    ts.slots.iter().all(|t| t.size == 0)
}

// A plan's number of entries.
#[tactic(auto, unfolding(erase_plan::specs::Span::survey_of))]
fn count_of(c: Cursor) -> u64
    ensures { result ≡ length (ahead c) }
{
    erase_plan::survey(c.types, c.at, c.last).count
}

// A plan's number of entries, and where it starts. Refusals 5 and 7, in that order.
#[tactic(auto, using(crate::proofs::Found::range_some, crate::proofs::Found::range_32), unfolding(crate::specs::Cursors::begun_of, crate::specs::Planned::types_for, crate::specs::Planned::plan_for))]
pub fn begin(q: PlanQuery) -> Result<(u64, Cursor), PlanError>
    ensures { result ≡ begun_of q }
{
    q.settings.check_address_length(q.address, q.length)?;
    let last = q.address as u64 + (q.length - 1);
    let types = erase_types(q.settings, q.known, q.params);
    if is_empty(types) {
        return Err(PlanError::NoEraseInstruction);
    }
    let cursor = Cursor {
        types,
        at: q.address,
        last: last as u32,
        later: false,
    };
    Ok((count_of(cursor), cursor))
}

// ---- entry by entry

// The entry at a cursor whose mark is true, if there is one, and the cursor past it, where the plan goes on.
#[tactic(auto, unfolding(crate::specs::Cursors::step_of))]
pub fn advance(c: Cursor) -> Option<Step>
    ensures { Kept c → result ≡ step_of c }
{
    let found = erase_plan::entry_at(c.types, c.later, c.at, c.last)?;
    let next = (found.stop < c.last).then(|| Cursor {
        at: found.stop + 1,
        later: erase_plan::later_next(c.types, c.later),
        ..c
    });
    Some(Step {
        entry: found.entry,
        next,
    })
}

// The entries from a cursor on, one into each slot: there are as many slots.
fn write_entries(slots: &mut [EraseEntry], start: Cursor)
    requires as_many { length slots.old ≡ length (ahead start) }
    requires marked { Kept start }
    ensures { slots.new ≡ ahead start }
{
    let mut place = Some(start);
    for slot in slots.iter_mut() {
        if let Some(step) = place.and_then(advance) {
            *slot = step.entry;
            place = step.next;
        }
    }
}

// ---- the answer

// The plan of a range, written into the lent slots: how many entries there are. A refusal changes no slot, and no slot past the plan's end
// changes.
#[tactic(auto, unfolding(crate::specs::Planned::written_of, crate::specs::Planned::planned_of, crate::specs::Cursors::begun_of))]
pub fn make_erase_plan(entries: &mut [EraseEntry], q: PlanQuery) -> Result<u64, PlanError>
    ensures { (result ≡ planned_of q (length entries.old)) × (entries.new ≡ written_of q entries.old) }
{
    let (count, cursor) = begin(q)?;
    if (entries.len() as u64) < count {
        return Err(PlanError::NoRoom(count));
    }
    write_entries(&mut entries[..count as usize], cursor);
    Ok(count)
}

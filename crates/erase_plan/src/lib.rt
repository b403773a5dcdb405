// Which blocks are erased so that a range is erased: the types of erase, one entry at a time, and the whole plan's size.
#![tactic(auto)]

ghost use Rattle.std.specs.Prelude.{◌≡◌, ℕ, ◌+◌, ◌<◌, ◌≤◌, true, ◌||◌, List, [], ◌∷◌, ◌++◌, ◌==◌};
ghost use Rattle.erase_plan.specs.Types.{in_order, kept, present, slots, sort, sorted_of, time_rank};
ghost use Rattle.erase_plan.specs.Plan.{entry_from, next_of, plan};
ghost use Rattle.erase_plan.specs.Span.{span_check, survey_of};
ghost use Rattle.erase_plan.specs.Words.{Each};
ghost use Rattle.erase_plan.specs.Good.{Present};
ghost use Rattle.erase_plan.specs.Later.{OnAll};
ghost use Rattle.erase_plan.specs.Marks.{is_power, is_single, are_powers, is_even};

// One available erase type. size 0: no such type. timed: whether the typical time is known; an entry's record has the number beside it in any case.
// So mark and number stay two fields: an Option would lose the number that a session's parameters may have beside a mark that is off.
// The derived order is by size, opcode, time, an absent time first (by_time), and so the plan's own (le_in_order), where no number stands beside a mark
// that is off. Plans sort by in_order, to which such a number is nothing.
#[derive(Clone, Copy, PartialEq, Eq, PartialOrd, Ord)]
pub struct EraseType {
    pub size: u32,
    pub opcode: u8,
    pub timed: bool,
    pub time: u32,
}

impl EraseType {
    // A slot that holds no type.
    pub const NONE: EraseType = EraseType {
        size: 0,
        opcode: 0,
        timed: false,
        time: 0,
    };
}

// At most four types, in order; the missing ones last, each `EraseType::NONE`.
#[derive(Clone, Copy)]
pub struct EraseTypes {
    pub slots: [EraseType; 4],
}

// One entry of a plan. timed is 0 or 1.
// Time and its mark stay two numbers, as a record for C has them: PlanShown of crate exported says of this type what C reads.
#[repr(C)]
#[derive(Clone, Copy, PartialEq, Eq)]
pub struct EraseEntry {
    pub opcode: u8,
    pub timed: u8,
    pub size: u32,
    pub base: u32,
    pub time: u32,
}

// An entry, with the last wanted byte that it covers.
#[derive(Clone, Copy)]
pub struct NextEntry {
    pub entry: EraseEntry,
    pub stop: u32,
}

// A plan's number of entries, its first base, and the end of its last entry.
#[derive(Clone, Copy, Default)]
pub struct Surveyed {
    pub count: u64,
    pub first: u32,
    pub end: u64,
}

// A time as a number to sort by, an absent one first.
fn time_rank(t: EraseType) -> u64
    ensures { result ≡ time_rank t }
{
    if t.timed { t.time as u64 + 1 } else { 0 }
}

// Whether a may stand before b: sorted by size, opcode, time.
fn in_order(a: EraseType, b: EraseType) -> bool
    ensures { result ≡ in_order a b }
{
    if a.size < b.size {
        return true;
    }
    if b.size < a.size {
        return false;
    }
    if a.opcode < b.opcode {
        return true;
    }
    if b.opcode < a.opcode {
        return false;
    }
    time_rank(a) <= time_rank(b)
}

// Whether a type goes before what a slot holds: the slot is empty, or the order allows it.
fn goes_before(t: EraseType, u: EraseType) -> bool
    ensures { result ≡ (u.size == 0 || in_order t u) }
{
    if u.size == 0 {
        return true;
    }
    in_order(t, u)
}

// A type put in its place, and what it displaces one slot further: where ts are the types of a list sorted, so is the result, with t.
fn put_in(t: EraseType, ts: EraseTypes) -> EraseTypes
    ensures { (l : List EraseType) → Each Present l → ts ≡ slots (sort l) → result ≡ slots (sort (kept t ++ l)) }
{
    if t.size == 0 {
        return ts;
    }
    let mut put = t;
    let mut slots = ts.slots;
    for slot in slots.iter_mut() {
        if goes_before(put, *slot) {
            std::mem::swap(&mut put, slot);
        }
    }
    EraseTypes { slots }
}

// Four slots in any order, sorted, the empty ones last.
pub fn sorted(a: EraseType, b: EraseType, c: EraseType, d: EraseType) -> EraseTypes
    ensures { result ≡ sorted_of a b c d }
{
    let mut ts = EraseTypes {
        slots: [EraseType::NONE; 4],
    };
    for t in [d, c, b, a] {
        ts = put_in(t, ts);
    }
    ts
}

// ---- which positions are multiples of every size, as far as it is seen without dividing

// Whether a slot is empty or its size is a power of two.
fn is_power(t: EraseType) -> bool
    ensures { result ≡ is_power t }
{
    t.size == 0 || t.size.is_power_of_two()
}

// Whether no slot but the first holds a type.
fn is_single(ts: EraseTypes) -> bool
    ensures { result ≡ is_single ts }
{
    ts.slots[1..].iter().all(|t| t.size == 0)
}

// Whether every size is a power of two.
fn are_powers(ts: EraseTypes) -> bool
    ensures { result ≡ are_powers ts }
{
    ts.slots.iter().all(|t| is_power(*t))
}

// Whether there is a single size, or all are powers of two: then every entry after the first starts at its own position.
pub fn is_even(ts: EraseTypes) -> bool
    ensures { result ≡ is_even ts }
{
    is_single(ts) || are_powers(ts)
}

// Whether a position is seen to be a multiple of a type's size: the size is a power of two, and the bits below it are 0.
fn lies_on(t: EraseType, at: u32) -> bool
    ensures { result ≡ true → OnAll at (kept t) }
{
    t.size == 0 || is_power(t) && at & (t.size - 1) == 0
}

// The same of every type.
fn lies_on_all(ts: EraseTypes, at: u32) -> bool
    ensures { result ≡ true → OnAll at (present ts) }
{
    ts.slots.iter().all(|t| lies_on(*t, at))
}

// ---- one entry

// The entry of a type with its block's base.
fn entry_for(t: EraseType, base: u32) -> EraseEntry
    ensures { result ≡ entry_from t base }
{
    EraseEntry {
        opcode: t.opcode,
        timed: t.timed as u8,
        size: t.size,
        base,
        time: t.time,
    }
}

// A type's entry at a position, if there is one. LATER: the position is known to be a multiple of the size, so that the block's base is
// the position; else the base is rounded down.
fn entry_of<const LATER: bool>(t: EraseType, at: u32, last: u32) -> Option<NextEntry>
    ensures { (LATER ≡ true → OnAll at (kept t)) → result ≡ next_of (kept t) at (last + 1) }
{
    if t.size == 0 || last < at {
        return None;
    }
    let base = if LATER { at } else { at - at % t.size };
    let stop = base as u64 + (t.size - 1) as u64;
    Some(NextEntry {
        entry: entry_for(t, base),
        stop: stop.min(last as u64) as u32,
    })
}

// The better of two entries at one position: the one that reaches further, on a tie the smaller, then the first. Where a is the
// entry of some types and b that of a type after them, the result is the entry of them all.
fn better(a: Option<NextEntry>, b: Option<NextEntry>) -> Option<NextEntry>
    ensures { (ts : List EraseType) (u : EraseType) (pos end : ℕ) → Each Present ts → a ≡ next_of ts pos end → b ≡ next_of (kept u) pos end → result ≡ next_of (ts ++ kept u) pos end }
{
    let Some(x) = a else {
        return b;
    };
    let Some(y) = b else {
        return a;
    };
    if x.stop < y.stop || x.stop == y.stop && y.entry.size < x.entry.size {
        b
    } else {
        a
    }
}

// The entry of all types at a position, LATER as in `entry_of`.
fn best<const LATER: bool>(ts: EraseTypes, at: u32, last: u32) -> Option<NextEntry>
    ensures { (LATER ≡ true → OnAll at (present ts)) → result ≡ next_of (present ts) at (last + 1) }
{
    let mut best = None;
    for t in ts.slots {
        best = better(best, entry_of::<LATER>(t, at, last));
    }
    best
}

// The first entry of a plan, at any position: it rounds down.
// The three names of one choice stay: they are public, and docs/PROMISES.md and docs/BENCH.md speak of each.
pub fn first_entry(ts: EraseTypes, at: u32, last: u32) -> Option<NextEntry>
    ensures { result ≡ next_of (present ts) at (last + 1) }
{
    best::<false>(ts, at, last)
}

// A later entry of a plan, at a position that is a multiple of every size: nothing is rounded.
pub fn later_entry(ts: EraseTypes, at: u32, last: u32) -> Option<NextEntry>
    ensures { OnAll at (present ts) → result ≡ next_of (present ts) at (last + 1) }
{
    best::<true>(ts, at, last)
}

// The entry at a position with a mark whether it is known to be a multiple of every size.
pub fn entry_at(ts: EraseTypes, later: bool, at: u32, last: u32) -> Option<NextEntry>
    ensures { (later ≡ true → OnAll at (present ts)) → result ≡ next_of (present ts) at (last + 1) }
{
    if later {
        later_entry(ts, at, last)
    } else {
        first_entry(ts, at, last)
    }
}

// The mark of the position after an entry.
pub fn later_next(ts: EraseTypes, later: bool) -> bool
    ensures { result ≡ (later || is_even ts) }
{
    later || is_even(ts)
}

// The plan's entry at a position of a range whose last byte is at last, whether it is the first one or not. The next position is one past
// stop, and the plan is over where stop is last.
pub fn next_entry(ts: EraseTypes, at: u32, last: u32) -> Option<NextEntry>
    ensures { result ≡ next_of (present ts) at (last + 1) }
{
    entry_at(ts, lies_on_all(ts, at), at, last)
}

// One entry more: where s tells of some entries, the result tells of them and e.
fn with_entry(s: Surveyed, e: EraseEntry) -> Surveyed
    requires { s.count ≤ 4294967296 }
    ensures { (es : List EraseEntry) → s ≡ survey_of es → result ≡ survey_of (es ++ e ∷ []) }
{
    Surveyed {
        count: s.count + 1,
        first: if s.count == 0 { e.base } else { s.first },
        end: e.base as u64 + e.size as u64,
    }
}

// The number of entries of the plan from at to last, and its span.
pub fn survey(ts: EraseTypes, at: u32, last: u32) -> Surveyed
    ensures { result ≡ survey_of (plan (present ts) at (last + 1)) }
{
    let mut seen = Surveyed::default();
    let mut place = at;
    let mut later = false;
    while let Some(next) = entry_at(ts, later, place, last) {
        seen = with_entry(seen, next.entry);
        if next.stop == last {
            break;
        }
        place = next.stop + 1;
        later = later_next(ts, later);
    }
    seen
}

// The check of erase_sectors: whether a span, from first to end, lies in the range of a length at an address; if not, the address to report.
pub fn check_span(address: u32, length: u64, first: u32, end: u64) -> Result<(), u32>
    ensures { result ≡ span_check address length first end }
{
    if first < address {
        return Err(address);
    }
    let from = address as u64;
    if from < end && length < end - from {
        return Err(address.wrapping_add((length % 0x1_0000_0000) as u32));
    }
    Ok(())
}

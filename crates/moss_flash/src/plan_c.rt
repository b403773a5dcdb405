// The plan for C: each entry is a record of 16 bytes in a lent slice.
ghost use Rattle.std.specs.Prelude.{◌≡◌, ◌*◌, ◌/◌, ◌≤◌, ◌++◌, length, drop};
ghost use Rattle.plans.specs.Planned.{planned_of};
ghost use Rattle.plans.specs.Cursors.{ahead, Kept};
ghost use Rattle.moss_flash.specs.Calls.{opened_of};
ghost use Rattle.moss_flash.specs.Plans.{query_of, entry_bytes, records_of, error_word, number_of, plan_number, number_words, plan_over, plan_called};

use crate::records;
use crate::records::EventWords;
use commands::Answer;
use erase_plan::EraseEntry;
use flash::Session;
use plans::{Cursor, PlanError, PlanQuery};

// An entry's record.
#[tactic(auto, using(packed::proofs::Bytes::le_four), unfolding(crate::specs::Plans::entry_bytes, packed::specs::Numbers::bytes))]
fn entry_bytes(e: EraseEntry) -> [u8; 16]
    ensures { result ≡ entry_bytes e }
{
    let [s0, s1, s2, s3] = e.size.to_le_bytes();
    let [b0, b1, b2, b3] = e.base.to_le_bytes();
    let [t0, t1, t2, t3] = e.time.to_le_bytes();
    [
        e.opcode, e.timed, 0, 0, s0, s1, s2, s3, b0, b1, b2, b3, t0, t1, t2, t3,
    ]
}

// So many entries from a cursor on, all that are ahead.
fn write_entries(out: &mut [u8], n: u64, c: Cursor)
    requires { (n ≡ length (ahead c)) × (16 * n ≤ length out.old) × Kept c }
    ensures { out.new ≡ records_of (ahead c) ++ drop (16 * n) out.old }
{
    let mut place = Some(c);
    // Laid by their places: of what is written through chunks of the slice a proof knows only the length afterwards.
    for k in 0..n {
        if let Some(step) = place.and_then(plans::advance) {
            room::lay(out, 16 * k, &entry_bytes(step.entry));
            place = step.next;
        }
    }
}

// How many entries there are; they are written where there are slots for all of them.
fn plan_into(entries: &mut [u8], q: PlanQuery) -> Result<u64, PlanError>
    ensures { (result ≡ planned_of q (length entries.old / 16)) × (entries.new ≡ plan_over q entries.old) }
{
    let slots = (entries.len() / 16) as u64;
    let (count, cursor) = plans::begin(q)?;
    if slots < count {
        return Err(PlanError::NoRoom(count));
    }
    write_entries(entries, count, cursor);
    Ok(count)
}

pub fn query_of(s: Session, address: u32, size: u64) -> PlanQuery
    ensures { result ≡ query_of s address size }
{
    PlanQuery {
        settings: s.settings,
        known: s.known,
        params: s.params,
        address,
        length: size,
    }
}

// What a refusal reports: of 5 the last address, of 11 how many entries the plan has.
pub fn error_word(e: PlanError) -> u64
    ensures { result ≡ error_word e }
{
    match e {
        PlanError::InvalidAddress(report) => report.last as u64,
        PlanError::NoEraseInstruction => 0,
        PlanError::NoRoom(count) => count,
    }
}

// The answer's number, whatever was asked for.
pub fn number_of<T: Copy>(x: Result<T, PlanError>) -> u8
    ensures { result ≡ number_of x }
{
    match x {
        Ok(_) => Answer::Done.number(),
        Err(e) => e.number(),
    }
}

// Number a of the event record: the count, or what a refusal reports.
#[tactic(auto, unfolding(crate::specs::Plans::plan_number))]
fn plan_number(p: Result<u64, PlanError>) -> u64
    ensures { result ≡ plan_number p }
{
    p.unwrap_or_else(error_word)
}

// The event record of an answer that has a number and at most two more.
pub fn number_words(number: u8, a: u64, b: u64) -> EventWords
    ensures { result ≡ number_words number a b }
{
    EventWords {
        head: number as u64,
        reply: 0,
        from: 0,
        len: 0,
        delay: 0,
        polls: 0,
        a,
        b,
    }
}

// The plan of a range: its entries, or a refusal that changes no slot.
pub fn moss_flash_make_erase_plan(
    session: &[u8],
    address: u32,
    size: u64,
    entries: &mut [u8],
    event: &mut [u8],
) -> u8
    ensures { (result ≡ (plan_called (opened_of session.now (length event.old)) address size entries.old event.old).number) × (entries.new ≡ (plan_called (opened_of session.now (length event.old)) address size entries.old event.old).room) × (event.new ≡ (plan_called (opened_of session.now (length event.old)) address size entries.old event.old).event) }
{
    match crate::open(session, event.len()) {
        Err(refusal) => refusal.number(),
        Ok(s) => {
            let p = plan_into(entries, query_of(s, address, size));
            records::write_words(event, number_words(number_of(p), plan_number(p), 0));
            number_of(p)
        }
    }
}

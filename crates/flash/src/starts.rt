// The starts, the setters, and the fresh session.
ghost use Rattle.std.specs.Prelude.{◌≡◌, true, false, cond, not, ◌&&◌, ◌||◌, ltb, ◌+◌, Ok, Err};
ghost use Rattle.settings.specs.Limits.{set_address_bytes, set_page_size, set_erase_size, set_poll_limit, set_capacity, clear_capacity, set_erase_opcode};
ghost use Rattle.flash.specs.Starts.{refused, starts, unless_runs, start_read, start_read_params, start_erase, start_erase_sectors, begin_sectors, start_reset, start_read_jedec_id, start_is_busy, start_is_protected, start_out, start_room, start_of, begin_program, begin_span, start_program, begin_data, start_program_data, fresh, setting, set_to};

use crate::{Event, First, Session, Stepped, reads, types_of};
use commands::Answer;
use erase_plan::Surveyed;
use phases::{
    Command, EraseCommand, Job, Phase, PollCommand, ReadCommand, ResetCommand, WriteCommand, ends,
};
use settings::{BadRange, SettingError, Settings};
use sfdp::FlashParams;

// A refused start: the answer, no poll, and the session as it was.
fn refuse(session: Session, answer: Answer) -> Stepped
    ensures { result ≡ refused session answer }
{
    Stepped {
        session,
        event: Event::Answered(answer, 0),
    }
}

fn begin(s: Session, p: Phase) -> Stepped
    ensures { result ≡ starts s p }
{
    s.goes(p, 0).tell()
}

#[tactic(auto, unfolding(crate::specs::Starts::unless_runs))]
fn unless_runs(s: Session, next: Stepped) -> Stepped
    ensures { result ≡ unless_runs s next }
{
    if ends::is_ended(s.phase) {
        next
    } else {
        refuse(s, Answer::BadSession)
    }
}

// The start of a session that such a beginning leads to.
fn started(s: Session, f: Result<First, Answer>) -> Stepped
    ensures { result ≡ start_out (start_of s f) }
{
    match f {
        Ok(First::Over) => reads::ended(s, 0, Command::Other, Answer::Done).tell(),
        Ok(First::Goes(_, p)) => begin(s, p),
        Err(a) => refuse(s, a),
    }
}

// The data are laid over the room once nothing is refused.
fn lay_first(f: Result<First, Answer>, d: &[u8], work: &mut [u8])
    ensures { (s : Session) → work.new ≡ start_room (start_of s f) d.now work.old }
{
    if let Ok(First::Goes(at, _)) = f {
        room::lay(work, at, d);
    }
}

// ---- how commands begin

// 11, or the first phase.
#[tactic(auto, using(std::proofs::lemmas::Bool::Decides::nat_tests))]
fn roomed(need: u64, len: u64, p: Phase) -> Result<First, Answer>
    ensures { result ≡ cond (ltb len need) (Err (Answer.NoRoom need)) (Ok (First.Goes 0 p)) }
{
    if len < need {
        Err(Answer::NoRoom(need))
    } else {
        Ok(First::Goes(0, p))
    }
}

#[tactic(auto, using(crate::proofs::Accepted::checked_range, crate::proofs::Accepted::roomed_starts), unfolding(crate::specs::Starts::start_read, crate::specs::Starts::in_range))]
fn begin_read(s: Session, legacy: bool, a: u32, n: u64, len: u64) -> Result<First, Answer>
    ensures { unless_runs s (start_out (start_of s result)) ≡ start_read s legacy a n len }
{
    s.settings.check_address_length(a, n)?;
    let first = Phase::Reading {
        command: ReadCommand::Read(legacy, a, n),
    };
    roomed(n, len, first)
}

// Of an accepted range: 7, 5 for the span, or the first entry of the plan.
#[tactic(auto, using(crate::proofs::Accepted::sectors_fit, crate::proofs::Accepted::sectors_bad), unfolding(crate::specs::Starts::have_types))]
fn plan_sectors(s: Session, a: u32, n: u64, last: u32) -> Result<First, Answer>
    ensures { last + 1 ≡ a + n → start_out (start_of s result) ≡ begin_sectors s a n }
{
    let types = types_of(s);
    if plans::is_empty(types) {
        return Err(Answer::NoEraseInstruction);
    }
    let span = erase_plan::survey(types, a, last);
    erase_plan::check_span(a, n, span.first, span.end).map_err(|last| Answer::InvalidAddress(
        BadRange { last },
    ))?;
    let first = Phase::Erasing {
        command: EraseCommand::Sectors(a, last),
        enabled: false,
    };
    Ok(First::Goes(0, first))
}

#[tactic(auto, using(crate::proofs::Accepted::checked_range), unfolding(crate::specs::Starts::start_erase_sectors, crate::specs::Starts::in_range))]
fn begin_sectors(s: Session, a: u32, n: u64) -> Result<First, Answer>
    ensures { unless_runs s (start_out (start_of s result)) ≡ start_erase_sectors s a n }
{
    s.settings.check_address_length(a, n)?;
    plan_sectors(s, a, n, (a as u64 + (n - 1)) as u32)
}

// Which reset, or 6.
#[tactic(auto, unfolding(crate::specs::Starts::start_reset))]
fn begin_reset(s: Session) -> Result<First, Answer>
    ensures { unless_runs s (start_out (start_of s result)) ≡ start_reset s }
{
    let command = if crate::resets_by_66(s) {
        ResetCommand::Enable
    } else if s.params.reset_inst_f0 {
        ResetCommand::F0
    } else {
        return Err(Answer::NoResetInstruction);
    };
    Ok(First::Goes(0, Phase::Resetting { command }))
}

// A program's span is known: 5 if it passes the limits, 11, or the first phase.
#[tactic(auto, using(crate::proofs::Accepted::checked_range))]
fn begin_span(
    s: Session,
    a: u32,
    last: u32,
    verified: bool,
    span: Surveyed,
    len: u64,
) -> Result<First, Answer>
    ensures { start_of s result ≡ begin_span s a last verified span len }
{
    let size = span.end.saturating_sub(span.first as u64);
    s.settings.check_address_length(span.first, size)?;
    if len < size {
        return Err(Answer::NoRoom(size));
    }
    let job = Job {
        from: a,
        last,
        base: span.first,
        top: (span.end - 1) as u32,
        verified,
    };
    let at = a.saturating_sub(span.first) as u64;
    Ok(First::Goes(at, phases::reads::to_before(job)))
}

// The range and the types are asked for as in erase_sectors: one function would hand back both the types and the last address, and
// its contract be longer than these lines.
#[tactic(auto, using(crate::proofs::Accepted::checked_range), unfolding(crate::specs::Starts::begin_program))]
fn begin_program(s: Session, a: u32, n: u64, v: bool, len: u64) -> Result<First, Answer>
    ensures { start_of s result ≡ begin_program s a n v len }
{
    if !ends::is_ended(s.phase) {
        return Err(Answer::BadSession);
    }
    s.settings.check_address_length(a, n)?;
    let types = types_of(s);
    if plans::is_empty(types) {
        return Err(Answer::NoEraseInstruction);
    }
    let last = (a as u64 + (n - 1)) as u32;
    begin_span(s, a, last, v, erase_plan::survey(types, a, last), len)
}

// Without data Done at any address.
#[tactic(auto, using(crate::proofs::Accepted::checked_range, crate::proofs::Accepted::roomed_begins), unfolding(crate::specs::Starts::begin_data))]
fn begin_data(s: Session, a: u32, n: u64, len: u64) -> Result<First, Answer>
    ensures { start_of s result ≡ begin_data s a n len }
{
    if !ends::is_ended(s.phase) {
        return Err(Answer::BadSession);
    }
    if n == 0 {
        return Ok(First::Over);
    }
    s.settings.check_address_length(a, n)?;
    let first = Phase::Writing {
        command: WriteCommand::Data(a, (n - 1) as u32, 0),
        enabled: false,
    };
    roomed(n, len, first)
}

// A setter's answer: Done with the new settings, or 10.
fn set_to(s: Session, x: Result<Settings, SettingError>) -> Stepped
    ensures { result ≡ set_to s x }
{
    match x {
        Ok(settings) => Stepped {
            session: Session { settings, ..s },
            event: Event::Answered(Answer::Done, 0),
        },
        Err(e) => refuse(s, Answer::from(e)),
    }
}

// A setter: 13 while a command runs.
#[tactic(auto, unfolding(crate::specs::Starts::setting))]
fn set(s: Session, x: Result<Settings, SettingError>) -> Stepped
    ensures { result ≡ setting s x }
{
    unless_runs(s, set_to(s, x))
}

impl Session {
    // A fresh session: the defaults, no parameters; it counts as ended with Done and 0 polls.
    pub fn new() -> Session
        ensures { result ≡ fresh }
    {
        Session {
            settings: Settings::new(),
            known: false,
            params: FlashParams::none(),
            phase: ends::over(Answer::Done),
            polls: 0,
        }
    }

    // ---- setters. One for each of the settings, under the name of its own: they are the public interface.

    pub fn set_address_bytes(self, n: u8) -> Stepped
        ensures { result ≡ setting self (set_address_bytes self.settings n) }
    {
        set(self, self.settings.set_address_bytes(n))
    }

    pub fn set_page_size(self, n: u64) -> Stepped
        ensures { result ≡ setting self (set_page_size self.settings n) }
    {
        set(self, self.settings.set_page_size(n))
    }

    pub fn set_erase_size(self, n: u64) -> Stepped
        ensures { result ≡ setting self (set_erase_size self.settings n) }
    {
        set(self, self.settings.set_erase_size(n))
    }

    pub fn set_poll_limit(self, n: u32) -> Stepped
        ensures { result ≡ setting self (set_poll_limit self.settings n) }
    {
        set(self, self.settings.set_poll_limit(n))
    }

    pub fn set_capacity(self, n: u64) -> Stepped
        ensures { result ≡ setting self (Ok (set_capacity self.settings n)) }
    {
        set(self, Ok(self.settings.set_capacity(n)))
    }

    pub fn clear_capacity(self) -> Stepped
        ensures { result ≡ setting self (Ok (clear_capacity self.settings)) }
    {
        set(self, Ok(self.settings.clear_capacity()))
    }

    pub fn set_erase_opcode(self, opcode: u8) -> Stepped
        ensures { result ≡ setting self (Ok (set_erase_opcode self.settings opcode)) }
    {
        set(self, Ok(self.settings.set_erase_opcode(opcode)))
    }

    // ---- starts. len is the length of the room that will be lent. read and legacy_read are two names of the public interface.

    pub fn read(self, address: u32, length: u64, len: u64) -> Stepped
        ensures { result ≡ start_read self false address «length» len }
    {
        let first = begin_read(self, false, address, length, len);
        unless_runs(self, started(self, first))
    }

    pub fn legacy_read(self, address: u32, length: u64, len: u64) -> Stepped
        ensures { result ≡ start_read self true address «length» len }
    {
        let first = begin_read(self, true, address, length, len);
        unless_runs(self, started(self, first))
    }

    #[tactic(auto, using(crate::proofs::Accepted::roomed_starts), unfolding(crate::specs::Starts::start_read_params))]
    pub fn read_params(self, len: u64) -> Stepped
        ensures { result ≡ start_read_params self len }
    {
        let first = Phase::Reading {
            command: ReadCommand::Header,
        };
        unless_runs(self, started(self, roomed(2056, len, first)))
    }

    // The whole chip.
    #[tactic(auto, unfolding(crate::specs::Starts::start_erase))]
    pub fn erase(self) -> Stepped
        ensures { result ≡ start_erase self }
    {
        let first = Phase::Erasing {
            command: EraseCommand::Chip,
            enabled: false,
        };
        unless_runs(self, begin(self, first))
    }

    pub fn erase_sectors(self, address: u32, length: u64) -> Stepped
        ensures { result ≡ start_erase_sectors self address «length» }
    {
        let first = begin_sectors(self, address, length);
        unless_runs(self, started(self, first))
    }

    #[tactic(auto, unfolding(crate::specs::Starts::start_program))]
    pub fn program(self, address: u32, data: &[u8], verify: bool, work: &mut [u8]) -> Stepped
        ensures { (result ≡ (start_program self address «data».now verify work.old).out) × (work.new ≡ (start_program self address «data».now verify work.old).room) }
    {
        let first = begin_program(self, address, data.len() as u64, verify, work.len() as u64);
        lay_first(first, data, work);
        started(self, first)
    }

    #[tactic(auto, unfolding(crate::specs::Starts::start_program_data))]
    pub fn program_data(self, address: u32, data: &[u8], work: &mut [u8]) -> Stepped
        ensures { (result ≡ (start_program_data self address «data».now work.old).out) × (work.new ≡ (start_program_data self address «data».now work.old).room) }
    {
        let first = begin_data(self, address, data.len() as u64, work.len() as u64);
        lay_first(first, data, work);
        started(self, first)
    }

    #[tactic(auto, unfolding(crate::specs::Starts::start_reset))]
    pub fn reset(self) -> Stepped
        ensures { result ≡ start_reset self }
    {
        unless_runs(self, started(self, begin_reset(self)))
    }

    #[tactic(auto, unfolding(crate::specs::Starts::start_read_jedec_id))]
    pub fn read_jedec_id(self) -> Stepped
        ensures { result ≡ start_read_jedec_id self }
    {
        let first = Phase::Reading {
            command: ReadCommand::Id,
        };
        unless_runs(self, begin(self, first))
    }

    #[tactic(auto, unfolding(crate::specs::Starts::start_is_busy))]
    pub fn is_busy(self) -> Stepped
        ensures { result ≡ start_is_busy self }
    {
        let first = Phase::Polling {
            command: PollCommand::Once,
            left: 0,
        };
        unless_runs(self, begin(self, first))
    }

    #[tactic(auto, unfolding(crate::specs::Starts::start_is_protected))]
    pub fn is_protected(self) -> Stepped
        ensures { result ≡ start_is_protected self }
    {
        let first = Phase::Reading {
            command: ReadCommand::Protected,
        };
        unless_runs(self, begin(self, first))
    }
}

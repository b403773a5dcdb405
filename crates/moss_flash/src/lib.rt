// The driver for C: numbers and byte slices. The session is 256 lent bytes, an event is a record in 64 lent bytes. Each export is
// its function of crates/flash, between unpacking and packing. include/moss_flash.h declares them.
#![tactic(auto)]

pub mod asked_c;
pub mod plan_c;
pub mod records;
pub mod settings_c;
pub mod starts_c;
pub mod table_c;

ghost use Rattle.std.specs.Prelude.{◌≡◌};
ghost use Rattle.moss_flash.specs.Calls.{unpack_of, opened_of, opened_start, refusal_number, number_in, Lent};
ghost use Rattle.moss_flash.specs.Records.{event_over};
ghost use Rattle.packed.specs.Layout.{put_over};

use flash::{Event, Session, Stepped};
use phases::ends;

// What a call returns in place of an answer's number where there is a transaction to carry out.
const SENT: u8 = 255;

// Why a call is not let in. An export matches on this and has no `?`: the C interface has the number itself as the result.
#[derive(Clone, Copy, PartialEq, Eq, Debug)]
pub enum Refusal {
    BadSession,
    NoRoom,
}

impl Refusal {
    // docs/SCOPE.md's answer number.
    pub fn number(self) -> u8
        ensures { result ≡ refusal_number self }
    {
        match self {
            Refusal::BadSession => 13,
            Refusal::NoRoom => 11,
        }
    }
}

// The session in lent bytes: they are exactly what packing it gives, and it meets the session's own rule.
#[tactic(auto, unfolding(crate::specs::Calls::unpack_of))]
pub fn unpack(bytes: &[u8]) -> Option<Session>
    ensures { result ≡ unpack_of bytes.now }
{
    let s = packed::get(bytes);
    (rule::holds(s) && packed::same(bytes, s)).then_some(s)
}

// BadSession for session bytes that are none, then NoRoom for an event record that is too short.
#[tactic(auto, unfolding(crate::specs::Calls::opened_of))]
pub fn open(session: &[u8], room: usize) -> Result<Session, Refusal>
    ensures { result ≡ opened_of session.now room }
{
    let s = unpack(session).ok_or(Refusal::BadSession)?;
    if room < 64 {
        return Err(Refusal::NoRoom);
    }
    Ok(s)
}

// The same for a start: BadSession comes first also where a command runs.
#[tactic(auto, unfolding(crate::specs::Calls::opened_start))]
pub fn open_start(session: &[u8], room: usize) -> Result<Session, Refusal>
    ensures { result ≡ opened_start session.now room }
{
    let s = unpack(session).ok_or(Refusal::BadSession)?;
    if room < 64 {
        return Err(if ends::is_ended(s.phase) {
            Refusal::NoRoom
        } else {
            Refusal::BadSession
        });
    }
    Ok(s)
}

// What a call returns: the answer's number, or SENT.
#[tactic(auto, unfolding(crate::specs::Calls::number_in))]
pub fn number_in(e: Event) -> u8
    ensures { result ≡ number_in e }
{
    match e {
        Event::Send(_) => SENT,
        Event::Answered(a, _) => a.number(),
    }
}

// The session is packed, and the event is written into its record.
pub fn hand_back(x: Stepped, session: &mut [u8], event: &mut [u8]) -> u8
    ensures { (result ≡ number_in x.event) × (session.new ≡ put_over x.session session.old) × (event.new ≡ event_over x.event event.old) }
{
    packed::put(session, x.session);
    records::write_event(event, x.event);
    number_in(x.event)
}

// A command of a session that is let in, lent a buffer: what it hands back is packed and written. A refused call changes nothing.
pub fn lent<F: FnOnce(Session, &mut [u8]) -> Stepped>(
    opened: Result<Session, Refusal>,
    session: &mut [u8],
    event: &mut [u8],
    work: &mut [u8],
    command: F,
) -> u8
    requires { F.IsAlwaysCallable command }
    ensures { Lent (λ s w x v. (shown : _) × (shown.now ≡ w) × (left : _) × F.post command s shown x left × (left.now ≡ v)) opened session.old event.old work.old result session.new event.new work.new }
{
    match opened {
        Err(refusal) => refusal.number(),
        Ok(s) => hand_back(command(s, work), session, event),
    }
}

// The step.
ghost use Rattle.std.specs.Prelude.{◌≡◌};
ghost use Rattle.flash.specs.Steps.{advanced, step_of};

use crate::{Event, Session, Stepped, polls, reads};
use commands::Answer;
use phases::{Phase, ends, replies};

// The session after a full reply.
#[tactic(auto, unfolding(crate::specs::Steps::advanced))]
#[inline(never)]
fn advance(s: Session, n: u64, p: Phase, reply: &[u8], work: &[u8]) -> Session
    ensures { result ≡ advanced s n p reply.now work.now }
{
    let limit = s.settings.poll_limit;
    match p {
        Phase::Reading { command } => reads::read_on(s, n, command, reply),
        Phase::Erasing { command, enabled } => {
            s.goes(replies::erase_on(limit, command, enabled), n)
        }
        Phase::Writing { command, enabled } => {
            s.goes(replies::write_on(limit, command, enabled), n)
        }
        Phase::Polling { command, left } => {
            s.goes(polls::poll_on(s, command, left, reply, work), n)
        }
        Phase::Verifying { command } => s.goes(replies::verify_on(command, reply, work), n),
        Phase::Resetting { command } => s.goes(phases::polls::reset_on(command), n),
        Phase::Ended { .. } => s,
    }
}

impl Session {
    // A reply to the transaction that the session waits on, or a failure that the host reports.
    pub fn step(self, failed: bool, reply: &[u8], work: &mut [u8]) -> Stepped
        ensures { (result ≡ (step_of self failed reply.now work.old).out) × (work.new ≡ (step_of self failed reply.now work.old).room) }
    {
        let p = self.phase;
        if ends::is_ended(p) {
            return self.tell();
        }
        let need = phases::need_of(p);
        let n = replies::count(self.polls, p);
        if (work.len() as u64) < need {
            return Stepped {
                session: self,
                event: Event::Answered(Answer::NoRoom(need), n),
            };
        }
        if replies::is_full(failed, reply.len() as u64, p) {
            let next = advance(self, n, p, reply, work);
            replies::keep(p, reply, work);
            return next.tell();
        }
        reads::ended(self, n, ends::ends_as(p), Answer::Access).tell()
    }
}

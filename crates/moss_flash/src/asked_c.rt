// What C may ask besides running a command: the version, the parameters that a table gave, the span of a program.
ghost use Rattle.std.specs.Prelude.{◌≡◌, length};
ghost use Rattle.moss_flash.specs.Calls.{unpack_of, opened_of};
ghost use Rattle.moss_flash.specs.Asked.{version, params_called, span_words, span_called};

use crate::records::EventWords;
use crate::{Refusal, plan_c, records};
use commands::Answer;
use plans::PlanError;
use questions::Span;

// The version of the interface: major, minor and patch, a byte each, the patch lowest.
pub fn moss_flash_version() -> u32
    ensures { result ≡ version }
{
    0x0200
}

// The parameters' record: 13, then 11 where it has less than 192 bytes; else 0.
pub fn moss_flash_params(session: &[u8], params: &mut [u8]) -> u8
    ensures { (result ≡ (params_called (unpack_of session.now) params.old).number) × (params.new ≡ (params_called (unpack_of session.now) params.old).event) }
{
    match crate::unpack(session) {
        None => Refusal::BadSession.number(),
        Some(_) if params.len() < 192 => Refusal::NoRoom.number(),
        Some(s) => {
            records::write_all(params, &questions::shown_words(s.known, s.params));
            Answer::Done.number()
        }
    }
}

// Of a span its first address and its length, of a refusal what it reports.
fn span_words(x: Result<Span, PlanError>) -> EventWords
    ensures { result ≡ span_words x }
{
    let (a, b) = match x {
        Ok(span) => (span.first as u64, span.len),
        Err(e) => (plan_c::error_word(e), 0),
    };
    plan_c::number_words(plan_c::number_of(x), a, b)
}

// The span of a program of a range. It only looks: a command may be running.
pub fn moss_flash_span(session: &[u8], address: u32, size: u64, event: &mut [u8]) -> u8
    ensures { (result ≡ (span_called (opened_of session.now (length event.old)) address size event.old).number) × (event.new ≡ (span_called (opened_of session.now (length event.old)) address size event.old).event) }
{
    match crate::open(session, event.len()) {
        Err(refusal) => refusal.number(),
        Ok(s) => {
            let x = questions::span_for(plan_c::query_of(s, address, size));
            records::write_words(event, span_words(x));
            plan_c::number_of(x)
        }
    }
}

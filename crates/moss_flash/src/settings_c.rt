// The fresh session, the setters and the settings' record for C.
ghost use Rattle.std.specs.Prelude.{◌≡◌, Ok, length};
ghost use Rattle.settings.specs.Limits.{set_address_bytes, set_page_size, set_erase_size, set_poll_limit, set_capacity, clear_capacity, set_erase_opcode};
ghost use Rattle.flash.specs.Starts.{setting};
ghost use Rattle.moss_flash.specs.Calls.{unpack_of, new_of, set_called, settings_called, Set};

use crate::{Refusal, records};
use commands::Answer;
use flash::{Session, Stepped};

// A fresh session, where there are exactly 256 bytes for it; else 13.
#[tactic(auto, unfolding(crate::specs::Calls::new_of))]
pub fn moss_flash_new(session: &mut [u8]) -> u8
    ensures { (result ≡ (new_of session.old).number) × (session.new ≡ (new_of session.old).session) }
{
    if session.len() == 256 {
        packed::put(session, Session::new());
        Answer::Done.number()
    } else {
        Refusal::BadSession.number()
    }
}

// A setter of the session in lent bytes: what it hands back is packed. Bytes that hold none are left as they were.
fn set<F: FnOnce(Session) -> Stepped>(session: &mut [u8], setter: F) -> u8
    requires { F.IsAlwaysCallable setter }
    ensures { Set (F.post setter) (unpack_of session.old) session.old result session.new }
{
    match crate::unpack(session) {
        None => Refusal::BadSession.number(),
        Some(s) => {
            let x = setter(s);
            packed::put(session, x.session);
            crate::number_in(x.event)
        }
    }
}

pub fn moss_flash_set_address_bytes(session: &mut [u8], n: u8) -> u8
    ensures { (result ≡ (set_called (unpack_of session.old) session.old (λ s. setting s (set_address_bytes s.settings n))).number) × (session.new ≡ (set_called (unpack_of session.old) session.old (λ s. setting s (set_address_bytes s.settings n))).session) }
{
    set(session, |s| s.set_address_bytes(n))
}

pub fn moss_flash_set_page_size(session: &mut [u8], n: u64) -> u8
    ensures { (result ≡ (set_called (unpack_of session.old) session.old (λ s. setting s (set_page_size s.settings n))).number) × (session.new ≡ (set_called (unpack_of session.old) session.old (λ s. setting s (set_page_size s.settings n))).session) }
{
    set(session, |s| s.set_page_size(n))
}

pub fn moss_flash_set_erase_size(session: &mut [u8], n: u64) -> u8
    ensures { (result ≡ (set_called (unpack_of session.old) session.old (λ s. setting s (set_erase_size s.settings n))).number) × (session.new ≡ (set_called (unpack_of session.old) session.old (λ s. setting s (set_erase_size s.settings n))).session) }
{
    set(session, |s| s.set_erase_size(n))
}

pub fn moss_flash_set_erase_opcode(session: &mut [u8], opcode: u8) -> u8
    ensures { (result ≡ (set_called (unpack_of session.old) session.old (λ s. setting s (Ok (set_erase_opcode s.settings opcode)))).number) × (session.new ≡ (set_called (unpack_of session.old) session.old (λ s. setting s (Ok (set_erase_opcode s.settings opcode)))).session) }
{
    set(session, |s| s.set_erase_opcode(opcode))
}

pub fn moss_flash_set_poll_limit(session: &mut [u8], n: u32) -> u8
    ensures { (result ≡ (set_called (unpack_of session.old) session.old (λ s. setting s (set_poll_limit s.settings n))).number) × (session.new ≡ (set_called (unpack_of session.old) session.old (λ s. setting s (set_poll_limit s.settings n))).session) }
{
    set(session, |s| s.set_poll_limit(n))
}

pub fn moss_flash_set_capacity(session: &mut [u8], n: u64) -> u8
    ensures { (result ≡ (set_called (unpack_of session.old) session.old (λ s. setting s (Ok (set_capacity s.settings n)))).number) × (session.new ≡ (set_called (unpack_of session.old) session.old (λ s. setting s (Ok (set_capacity s.settings n)))).session) }
{
    set(session, |s| s.set_capacity(n))
}

pub fn moss_flash_clear_capacity(session: &mut [u8]) -> u8
    ensures { (result ≡ (set_called (unpack_of session.old) session.old (λ s. setting s (Ok (clear_capacity s.settings)))).number) × (session.new ≡ (set_called (unpack_of session.old) session.old (λ s. setting s (Ok (clear_capacity s.settings)))).session) }
{
    set(session, |s| s.clear_capacity())
}

// The settings' record: 13, then 11 where it has less than 32 bytes; else 0.
pub fn moss_flash_settings(session: &[u8], settings: &mut [u8]) -> u8
    ensures { (result ≡ (settings_called (unpack_of session.now) settings.old).number) × (settings.new ≡ (settings_called (unpack_of session.now) settings.old).event) }
{
    match crate::unpack(session) {
        None => Refusal::BadSession.number(),
        Some(_) if settings.len() < 32 => Refusal::NoRoom.number(),
        Some(s) => {
            records::write_settings(settings, records::settings_words(s));
            Answer::Done.number()
        }
    }
}

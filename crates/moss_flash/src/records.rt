// The records that C reads: numbers of 64 bits, one after another, the lowest byte first.
ghost use Rattle.std.specs.Prelude.{◌≡◌};
ghost use Rattle.moss_flash.specs.Records.{address_in, head_of, number_a, number_b, sent_words, answer_words, event_words, words_over, event_over, settings_head, settings_words, settings_over};
ghost use Rattle.moss_flash.specs.Asked.{laid_from};

use commands::Answer;
use flash::{Event, Session};
use phases::{Transaction, ends};

// The eight numbers of an event record, as C reads them: an array would say nothing of what stands where.
#[derive(Clone, Copy)]
pub struct EventWords {
    pub head: u64,
    pub reply: u64,
    pub from: u64,
    pub len: u64,
    pub delay: u64,
    pub polls: u64,
    pub a: u64,
    pub b: u64,
}

// The address bytes as they go out, the highest first, as one number whose lowest byte is the first of them.
#[tactic(auto, unfolding(crate::specs::Records::address_in, crate::specs::Records::low_first, commands::specs::Wire::high_first))]
fn address_in(n: u8, a: u32) -> u32
    ensures { result ≡ address_in n a }
{
    let [b0, b1, b2, b3] = a.to_le_bytes();
    match n {
        1 => u32::from_le_bytes([b0, 0, 0, 0]),
        2 => u32::from_le_bytes([b1, b0, 0, 0]),
        3 => u32::from_le_bytes([b2, b1, b0, 0]),
        4 => u32::from_le_bytes([b3, b2, b1, b0]),
        _ => 0,
    }
}

// SENT, how many bytes the head has, the command byte, the address bytes. A dummy is 00, as what is unused. A sum and no bytes:
// what a transaction's type allows for the count may pass a byte.
#[tactic(auto, unfolding(crate::specs::Records::head_of))]
fn head_of(t: Transaction) -> u64
    ensures { result ≡ head_of t }
{
    let count = 1 + t.addressed as u64 + u64::from(t.dummy);
    let address = address_in(t.addressed, t.address) as u64;
    crate::SENT as u64 + 256 * count + 65_536 * (t.opcode as u64 + 256 * address)
}

#[tactic(auto, unfolding(crate::specs::Records::sent_words))]
fn sent_words(t: Transaction) -> EventWords
    ensures { result ≡ sent_words t }
{
    EventWords {
        head: head_of(t),
        reply: t.reply,
        from: t.from as u64,
        len: t.len,
        delay: t.delay as u64 + 0x1_0000_0000 * (u8::from(t.poll) as u64),
        polls: 0,
        a: 0,
        b: 0,
    }
}

// What an answer tells beside its number.
#[tactic(auto, unfolding(crate::specs::Records::number_a))]
fn number_a(a: Answer) -> u64
    ensures { result ≡ number_a a }
{
    match a {
        Answer::DoneBool(yes) => u64::from(yes),
        Answer::DoneId(bank, _, _) => bank as u64,
        Answer::ReadbackError(address, _, _) => address as u64,
        Answer::InvalidAddress(report) => report.last as u64,
        Answer::NoRoom(need) => need,
        _ => 0,
    }
}

#[tactic(auto, unfolding(crate::specs::Records::number_b))]
fn number_b(a: Answer) -> u64
    ensures { result ≡ number_b a }
{
    match a {
        Answer::DoneId(_, manufacturer, device) => manufacturer as u64 + 256 * (device as u64),
        Answer::ReadbackError(_, wrote, read) => wrote as u64 + 256 * (read as u64),
        _ => 0,
    }
}

#[tactic(auto, unfolding(crate::specs::Records::answer_words))]
fn answer_words(a: Answer, polls: u64) -> EventWords
    ensures { result ≡ answer_words a polls }
{
    EventWords {
        head: a.number() as u64,
        reply: 0,
        from: 0,
        len: 0,
        delay: 0,
        polls,
        a: number_a(a),
        b: number_b(a),
    }
}

#[tactic(auto, unfolding(crate::specs::Records::event_words))]
fn event_words(e: Event) -> EventWords
    ensures { result ≡ event_words e }
{
    match e {
        Event::Send(t) => sent_words(t),
        Event::Answered(a, polls) => answer_words(a, polls),
    }
}

// Numbers of 64 bits, one after another, each where it has room.
pub fn write_all(out: &mut [u8], numbers: &[u64])
    ensures { out.new ≡ laid_from 0 numbers.now out.old }
{
    for (i, x) in numbers.iter().enumerate() {
        room::lay(out, 8 * i as u64, &x.to_le_bytes());
    }
}

#[tactic(auto, unfolding(crate::specs::Records::words_over, crate::specs::Asked::laid_from))]
pub fn write_words(event: &mut [u8], w: EventWords)
    ensures { event.new ≡ words_over w event.old }
{
    write_all(
        event,
        &[w.head, w.reply, w.from, w.len, w.delay, w.polls, w.a, w.b],
    );
}

pub fn write_event(event: &mut [u8], e: Event)
    ensures { event.new ≡ event_over e event.old }
{
    write_words(event, event_words(e));
}

// ---- the settings' record

// The four numbers of the settings' record.
#[derive(Clone, Copy)]
pub struct SettingsRecord {
    pub head: u64,
    pub capacity: u64,
    pub sizes: u64,
    pub density: u64,
}

// Four yes-or-no marks and small numbers, a byte each.
#[tactic(auto, unfolding(crate::specs::Records::settings_head, crate::specs::Records::low_first))]
fn settings_head(s: Session) -> u64
    ensures { result ≡ settings_head s }
{
    let x = s.settings;
    let [limit_low, limit_high] = x.poll_limit.to_le_bytes();
    u64::from_le_bytes([
        x.address_bytes,
        u8::from(x.capacity.is_some()),
        x.erase_opcode,
        u8::from(s.known),
        limit_low,
        limit_high,
        u8::from(flash::is_flagged(s)),
        u8::from(!ends::is_ended(s.phase)),
    ])
}

#[tactic(auto, unfolding(crate::specs::Records::settings_words))]
pub fn settings_words(s: Session) -> SettingsRecord
    ensures { result ≡ settings_words s }
{
    let x = s.settings;
    let p = s.params;
    SettingsRecord {
        head: settings_head(s),
        capacity: x.capacity.unwrap_or(0),
        sizes: x.page_size as u64 + 0x1_0000_0000 * (x.erase_size as u64),
        density: if s.known { p.density } else { 0 },
    }
}

#[tactic(auto, unfolding(crate::specs::Records::settings_over, crate::specs::Asked::laid_from))]
pub fn write_settings(out: &mut [u8], w: SettingsRecord)
    ensures { out.new ≡ settings_over w out.old }
{
    write_all(out, &[w.head, w.capacity, w.sizes, w.density]);
}

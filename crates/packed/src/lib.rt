// A session as 256 bytes, for a host that keeps bytes alone: 64 words of 32 bits, each word's lowest byte first. The layout is the
// table at the head of specs/Layout.antt. Any bytes read as some session; `same` says whether bytes are exactly a session's.
#![tactic(auto)]

mod numbers;
mod parts;
mod phase_words;

ghost use Rattle.std.specs.Prelude.{◌≡◌, length};
ghost use Rattle.packed.specs.Numbers.{bytes, words, same_list};
ghost use Rattle.packed.specs.Layout.{to_words, from_words, bytes_of, session_in, put_over};

use flash::Session;
use phases::Job;

// A command: its number, its yes or no, its job, three numbers.
#[derive(Clone, Copy)]
pub struct Slots {
    pub command: u8,
    pub flag: bool,
    pub job: Job,
    pub a: u32,
    pub b: u32,
    pub c: u32,
}

// An answer: its number and three more.
#[derive(Clone, Copy)]
pub struct Reported {
    pub answer: u8,
    pub a: u32,
    pub b: u32,
    pub c: u32,
}

// A phase: its number, its answer's, whether the 06 was answered, the polls left, its command.
#[derive(Clone, Copy)]
pub struct Place {
    pub phase: u8,
    pub answer: u8,
    pub enabled: bool,
    pub left: u16,
    pub slots: Slots,
}

// ---- a session and its words

// The 64 words of a session: those of its parts, and 0 in the last six.
#[tactic(auto, unfolding(crate::specs::Layout::to_words))]
pub fn to_words(s: Session) -> [u32; 64]
    ensures { result ≡ to_words s }
{
    let params = parts::shown_params(s);
    let insts = params.erase_insts;
    let [s0, s1, s2, s3, s4, s5] = parts::settings_words(s.settings, s.known);
    let [p0, p1, p2, p3, p4, p5, p6, p7, p8] = parts::params_words(params);
    let [a0, a1, a2, a3, a4] = parts::inst_words(insts.inst1);
    let [b0, b1, b2, b3, b4] = parts::inst_words(insts.inst2);
    let [c0, c1, c2, c3, c4] = parts::inst_words(insts.inst3);
    let [d0, d1, d2, d3, d4] = parts::inst_words(insts.inst4);
    let [t0, t1, t2, t3, t4, t5, t6, t7, t8, t9, t10, t11] = parts::timing_words(params.timing);
    let (n0, n1) = (numbers::low(s.polls), numbers::high(s.polls));
    let [q0, q1, q2, q3, q4, q5, q6, q7, q8] = phase_words::place_words(phase_words::place_of(
        s.phase,
    ));
    // Named one by one: what is copied part by part costs a session a fill and nine copies.
    [
        s0, s1, s2, s3, s4, s5, p0, p1, p2, p3, p4, p5, p6, p7, p8, a0, a1, a2, a3, a4, b0, b1, b2,
        b3, b4, c0, c1, c2, c3, c4, d0, d1, d2, d3, d4, t0, t1, t2, t3, t4, t5, t6, t7, t8, t9,
        t10, t11, n0, n1, q0, q1, q2, q3, q4, q5, q6, q7, q8, 0, 0, 0, 0, 0, 0,
    ]
}

// The session in 64 words.
#[tactic(auto, unfolding(crate::specs::Layout::from_words))]
pub fn from_words(w: &[u32; 64]) -> Session
    ensures { result ≡ from_words w.now }
{
    Session {
        settings: parts::settings_in(w),
        known: parts::known_in(w),
        params: parts::params_or_none(w),
        phase: phase_words::phase_in(phase_words::place_in(w)),
        polls: numbers::wide(w[47], w[48]),
    }
}

// ---- words and bytes

// Writes the words as bytes.
fn store(out: &mut [u8], w: &[u32; 64])
    requires { length out.old ≡ 256 }
    ensures { out.new ≡ bytes w.now }
{
    // By places: of what is written through chunks of the slice a proof knows only the length afterwards.
    for (i, x) in w.iter().enumerate() {
        out[4 * i..4 * i + 4].copy_from_slice(&x.to_le_bytes());
    }
}

// The first 64 words of bytes.
fn load(b: &[u8]) -> [u32; 64]
    ensures { result ≡ words 64 b.now }
{
    // By places and not by chunks: a byte that is not there reads as 0.
    std::array::from_fn(|i| numbers::word_at(b, 4 * i))
}

// ---- a session and its bytes

// Writes the session's bytes, where there is room for exactly 256; else nothing.
pub fn put(out: &mut [u8], s: Session)
    ensures { out.new ≡ put_over s out.old }
{
    if out.len() == 256 {
        store(out, &to_words(s));
    }
}

// The session in bytes, whatever they are; a byte that is not there reads as 0.
pub fn get(b: &[u8]) -> Session
    ensures { result ≡ session_in b.now }
{
    from_words(&load(b))
}

// Whether the bytes are exactly the session's.
pub fn same(b: &[u8], s: Session) -> bool
    ensures { result ≡ same_list b.now (bytes_of s) }
{
    b.len() == 256 && load(b) == to_words(s)
}

// What a run comes to, ours and the Rust's.
use crate::digest;
use crate::play::Play;
use crate::record::Record;
use commands::Answer;
use flash::Event;
use settings::Settings;

// docs/SCOPE.md's answer of a number; none within the transactions that are played; or the Rust's wait without end, or its panic.
#[derive(Clone, Copy, PartialEq, Eq)]
pub enum Verdict {
    Answer(u8),
    Unanswered,
    Stuck,
    Panic,
}

// The answers that classes.rt tells apart, by number: of a number alone no commands::Answer can be made, since most have values.
pub const DONE: u8 = 0;

pub const INVALID_SFDP_PARAMS: u8 = 4;

pub const INVALID_ADDRESS: u8 = 5;

pub const ACCESS: u8 = 8;

pub const BUSY: u8 = 9;

pub const NO_SFDP: u8 = 12;

const UNANSWERED: u8 = 253;

const STUCK: u8 = 254;

const PANIC: u8 = 255;

impl From<u8> for Verdict {
    fn from(number: u8) -> Verdict {
        match number {
            UNANSWERED => Verdict::Unanswered,
            STUCK => Verdict::Stuck,
            PANIC => Verdict::Panic,
            answer => Verdict::Answer(answer),
        }
    }
}

impl From<Verdict> for u8 {
    fn from(verdict: Verdict) -> u8 {
        match verdict {
            Verdict::Answer(answer) => answer,
            Verdict::Unanswered => UNANSWERED,
            Verdict::Stuck => STUCK,
            Verdict::Panic => PANIC,
        }
    }
}

// An answer with its values: a 32-bit number, two bytes, a 16-bit number; and the digest of the bytes that a read gives.
#[derive(Clone, Copy, PartialEq, Eq)]
pub struct Answered {
    pub verdict: Verdict,
    pub value: u32,
    pub first: u8,
    pub second: u8,
    pub third: u16,
    pub read: u32,
}

// The number of transactions and polls, and the digest of all that was sent.
#[derive(Clone, Copy, PartialEq, Eq)]
pub struct Sent {
    pub count: u32,
    pub polls: u64,
    pub digest: u32,
}

// The settings afterwards, but for the erase opcode and the poll limit. A record has both the mark and the capacity, so both are compared.
#[derive(Clone, Copy, PartialEq, Eq)]
pub struct Given {
    pub address_bytes: u8,
    pub capacity_set: bool,
    pub capacity: u64,
    pub page_size: u32,
    pub erase_size: u32,
}

#[derive(Clone, Copy)]
pub struct Outcome {
    pub answered: Answered,
    pub sent: Sent,
    pub given: Given,
    pub erase_opcode: u8,
}

fn bare(verdict: Verdict) -> Answered {
    Answered {
        verdict,
        value: 0,
        first: 0,
        second: 0,
        third: 0,
        read: 0,
    }
}

impl From<Answer> for Answered {
    fn from(answer: Answer) -> Answered {
        let bare = bare(Verdict::Answer(answer.number()));
        match answer {
            Answer::DoneBool(yes) => Answered {
                first: yes as u8,
                ..bare
            },
            Answer::DoneId(first, second, third) => Answered {
                first,
                second,
                third,
                ..bare
            },
            Answer::ReadbackError(value, first, second) => Answered {
                value,
                first,
                second,
                ..bare
            },
            Answer::InvalidAddress(report) => Answered {
                value: report.last,
                ..bare
            },
            _ => bare,
        }
    }
}

impl From<Settings> for Given {
    fn from(s: Settings) -> Given {
        Given {
            address_bytes: s.address_bytes,
            capacity_set: s.capacity.is_some(),
            capacity: s.capacity.unwrap_or(0),
            page_size: s.page_size,
            erase_size: s.erase_size,
        }
    }
}

// What is alike: the answer with its values and bytes; what was sent; the settings; the erase opcode.
#[derive(Clone, Copy)]
pub struct Alike {
    pub answer: bool,
    pub wire: bool,
    pub settings: bool,
    pub opcode: bool,
}

impl Outcome {
    // Ours.
    pub fn of(r: &Record, p: Play, work: &[u8]) -> Outcome {
        let (told, polls) = match p.event {
            Event::Send(_) => (bare(Verdict::Unanswered), 0),
            Event::Answered(answer, polls) => (Answered::from(answer), polls),
        };
        let done = told.verdict == Verdict::Answer(DONE);
        let read = if done && r.command.is_read() {
            digest::of_bytes(room::payload(work, 0, r.length))
        } else {
            0
        };
        let settings = p.session.settings;
        Outcome {
            answered: Answered { read, ..told },
            sent: Sent {
                count: p.wire.count,
                polls,
                digest: p.digest,
            },
            given: Given::from(settings),
            erase_opcode: settings.erase_opcode,
        }
    }

    pub fn compare(&self, other: &Outcome) -> Alike {
        Alike {
            answer: self.answered == other.answered,
            wire: self.sent == other.sent,
            settings: self.given == other.given,
            opcode: self.erase_opcode == other.erase_opcode,
        }
    }

    // One number for all of it.
    pub fn summary(&self) -> u32 {
        let Outcome {
            answered,
            sent,
            given,
            erase_opcode,
        } = *self;
        digest::of_numbers(&[
            u8::from(answered.verdict) as u32,
            answered.value,
            answered.first as u32,
            answered.second as u32,
            answered.third as u32,
            sent.count,
            digest::low(sent.polls),
            sent.digest,
            answered.read,
            given.address_bytes as u32,
            given.capacity_set as u32,
            digest::low(given.capacity),
            digest::low(given.capacity / 0x1_0000_0000),
            given.page_size,
            given.erase_size,
            erase_opcode as u32,
        ])
    }
}

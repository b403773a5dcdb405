// A record's run: the settings, the start, and the steps to the answer.
use crate::record::{Capacity, Command, Fault, Record};
use crate::wire::Wire;
use crate::{digest, wire};
use flash::{Event, Session, Stepped};
use phases::Transaction;

// The driver's room; a reply, which may be a byte longer; and what was written, for the readback.
#[derive(Drop)]
pub struct Rooms {
    pub work: [u8; 4096],
    pub reply: [u8; 4352],
    pub written: [u8; 4096],
}

impl Rooms {
    pub fn new() -> Rooms {
        Rooms {
            work: [0; 4096],
            reply: [0; 4352],
            written: [0; 4096],
        }
    }
}

// A run under way.
#[derive(Clone, Copy)]
pub struct Play {
    pub session: Session,
    pub event: Event,
    pub wire: Wire,
    pub digest: u32,
}

pub fn begun(x: Stepped, plain: bool) -> Play {
    Play {
        session: x.session,
        event: x.event,
        wire: Wire::new(plain),
        digest: 0,
    }
}

// One transaction, its reply, and the step.
fn turn(r: &Record, p: Play, t: Transaction, rooms: &mut Rooms) -> Play {
    let fault = p.wire.fault(r);
    let failed = fault == Some(Fault::Fails);
    let n = wire::reply_len(fault, t);
    p.wire.fill(r, t, n, &rooms.written, &mut rooms.reply);
    let part = room::payload(&rooms.work, t.from, t.len);
    p.wire.keep(t, part, &mut rooms.written);
    // The delay comes after a transaction that did not fail.
    let delay = if failed { 0 } else { t.delay };
    let digest = digest::sent(p.digest, t, part, delay);
    let reply = room::payload(&rooms.reply, 0, n);
    let x = p.session.step(failed, reply, &mut rooms.work);
    Play {
        session: x.session,
        event: x.event,
        wire: p.wire.after(t),
        digest,
    }
}

// To the answer, in at most 255 transactions. A proved loop has to end, and no clause says when a command does: a run that were cut off
// would have no answer, and be counted as wrong.
pub fn played(r: &Record, p: Play, rooms: &mut Rooms) -> Play {
    let mut now = p;
    for _ in 0..255 {
        match now.event {
            Event::Send(t) => now = turn(r, now, t, rooms),
            Event::Answered(_, _) => break,
        }
    }
    now
}

// A fresh session, after the area was read if there is one.
pub fn with_area(r: &Record, rooms: &mut Rooms) -> Session {
    let fresh = Session::new();
    if r.reads_area {
        let start = fresh.read_params(rooms.work.len() as u64);
        played(r, begun(start, true), rooms).session
    } else {
        fresh
    }
}

pub fn with_settings(r: &Record, fresh: Session) -> Session {
    let mut s = fresh;
    if let Some(n) = r.address_bytes {
        s = s.set_address_bytes(n).session;
    }
    s = s.set_poll_limit(r.poll_limit as u32).session;
    match r.capacity {
        Capacity::Left => {}
        Capacity::Set(n) => s = s.set_capacity(n).session,
        Capacity::Unset => s = s.clear_capacity().session,
    }
    if let Some(n) = r.page_size {
        s = s.set_page_size(n as u64).session;
    }
    if let Some(n) = r.erase_size {
        s = s.set_erase_size(n as u64).session;
    }
    if let Some(opcode) = r.erase_opcode {
        s = s.set_erase_opcode(opcode).session;
    }
    s
}

pub fn start(r: &Record, s: Session, work: &mut [u8]) -> Stepped {
    let len = work.len() as u64;
    let data = wire::data(r);
    let part = room::payload(&data, 0, r.length);
    match r.command {
        Command::Read => s.read(r.address, r.length, len),
        Command::LegacyRead => s.legacy_read(r.address, r.length, len),
        Command::ReadParams => s.read_params(len),
        Command::Erase => s.erase(),
        Command::EraseSectors => s.erase_sectors(r.address, r.length),
        Command::Program => s.program(r.address, part, r.verify, work),
        Command::ProgramData => s.program_data(r.address, part, work),
        Command::Reset => s.reset(),
        Command::ReadJedecId => s.read_jedec_id(),
        Command::IsBusy => s.is_busy(),
        Command::IsProtected => s.is_protected(),
    }
}

// The wire between the driver and the part: a transaction's bytes, the part's reply, and the step.
use crate::{Play, Wired};
use flash::Event;
use phases::Transaction;

// ---- what is sent

// Puts a transaction's bytes at the start of a buffer, its address with the highest byte first; how many they are.
fn put(t: Transaction, work: &[u8], sent: &mut [u8]) -> u64 {
    let address = t.address.to_be_bytes();
    let unsent = 4 - t.addressed.min(4) as usize;
    let (opcode, dummy) = ([t.opcode], [0]);
    let parts = [
        opcode.as_slice(),
        &address[unsent..],
        &dummy[..t.dummy as usize],
        room::payload(work, t.from, t.len),
    ];
    let mut at: u64 = 0;
    for part in parts {
        room::lay(sent, at, part);
        at = at.wrapping_add(part.len() as u64);
    }
    at
}

// ---- what comes back

impl Wired<'_> {
    // How many polls an operation stays busy: at most the limit, or beyond it.
    fn busy(self, limit: u16, x: u64) -> u64 {
        let most = limit as u64;
        if self.slow {
            most + 1 + x % 3
        } else {
            x % (most + 1)
        }
    }
}

// One transaction: the part's reply, as long as asked, and the driver's step with it.
fn turn(
    play: Play,
    wired: Wired<'_>,
    limit: u16,
    t: Transaction,
    work: &mut [u8],
    memory: &mut [u8],
) -> Play {
    // Fixed memory: a host of the driver needs no heap.
    let mut sent = [0; 1040];
    let n = put(t, work, &mut sent);
    let mut reply = [0; 4352];
    let reply = &mut reply[..t.reply.min(4352) as usize];
    let busy = wired.busy(limit, play.source.number());
    let bytes = room::payload(&sent, 0, n);
    let state = nor_part::respond(wired.part, play.state, busy, bytes, reply, memory);
    Play {
        stepped: play.stepped.session.step(false, reply, work),
        state,
        source: play.source.next(),
        count: play.count.wrapping_add(1),
    }
}

// To the answer, in at most 200,000 transactions. A proved loop has to end, and no clause says when a command does: one that were cut off
// would have no answer, and model_runs would count it as a mismatch.
pub fn played(
    play: Play,
    wired: Wired<'_>,
    limit: u16,
    work: &mut [u8],
    memory: &mut [u8],
) -> Play {
    let mut now = play;
    for _ in 0..200_000 {
        match now.stepped.event {
            Event::Send(t) => now = turn(now, wired, limit, t, work, memory),
            Event::Answered(_, _) => break,
        }
    }
    now
}

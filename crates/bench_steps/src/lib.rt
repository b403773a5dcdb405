// What tools/bench calls: a command run step by step, with all that was sent folded into one number. For the benchmark alone.
#![tactic(auto)]

use bench::then;
use flash::{Event, Session, Stepped};
use phases::Transaction;

// What is sent, folded: the transaction, and the first and last byte of its payload.
fn fold_sent(t: Transaction, work: &[u8]) -> u64 {
    let part = room::payload(work, t.from, t.len);
    let ends = match (part.first(), part.last()) {
        (Some(first), Some(last)) => *first as u64 + 2 * *last as u64,
        _ => 0,
    };
    let tail = then(t.reply, t.len.wrapping_add(ends));
    then(t.opcode as u64, then(t.address as u64, tail))
}

// The host: it sends what the events say, and gives back the reply of an erased part that is always ready. A poll is answered by
// the first byte of the part, a read by those after it. A proved loop has to end, and no clause says when a command does: 100,000 steps
// are many more than any write of tools/bench takes, of 4,096 bytes at most.
fn run(x: Stepped, part: &[u8], work: &mut [u8]) -> u64 {
    let mut now = x;
    let mut folded: u64 = 0;
    for _ in 0..100_000 {
        match now.event {
            Event::Answered(_, polls) => return folded.wrapping_add(polls),
            Event::Send(t) => {
                folded = folded.wrapping_add(fold_sent(t, work));
                let from = if t.poll { 0 } else { 1 };
                let reply = room::payload(part, from, t.reply);
                now = now.session.step(false, reply, work);
            }
        }
    }
    folded
}

// A program without verify on a part of 64 KiB with sectors of 4 KiB, all of it FF and always ready.
pub fn mg_bench_program(address: u32, data: &[u8], work: &mut [u8]) -> u64 {
    let sized = Session::new().set_erase_size(4096).session;
    let s = sized.set_capacity(65_536).session;
    let mut part = [0xFFu8; 4097];
    part[0] = 0;
    run(s.program(address, data, false, work), &part, work)
}

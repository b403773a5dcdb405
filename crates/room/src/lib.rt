// The lent room: bytes laid over it, compared with others, and the all-FF test.
#![tactic(auto)]

ghost use Rattle.std.specs.Prelude.{◌≡◌, ◌+◌, ◌≤◌, length, take, drop};
ghost use Rattle.commands.specs.Script.{over};
ghost use Rattle.commands.specs.Commands.{blank};
ghost use Rattle.room.specs.Room.{laid, differs_from, part_of};

// A place in which the room differs from what was read: how far into the room it is, what the room has there, and what was read.
#[derive(Clone, Copy)]
pub struct Difference {
    pub at: u64,
    pub has: u8,
    pub read: u8,
}

// Copies bytes that fit. By index: `copy_from_slice` of a length that is not known calls memmove, and the archive takes memcpy and memset
// of the C library alone (docs/MANUAL.md).
fn copy_at(room: &mut [u8], at: usize, bytes: &[u8])
    requires { at + length bytes.now ≤ length room.old }
    ensures { room.new ≡ over at bytes.now room.old }
{
    for (i, byte) in bytes.iter().enumerate() {
        room[at + i] = *byte;
    }
}

// Lays bytes over the room from a place on, where they fit; else changes nothing.
#[tactic(auto, using(crate::proofs::Laws::laid_not))]
pub fn lay(room: &mut [u8], at: u64, bytes: &[u8])
    ensures { room.new ≡ laid at bytes.now room.old }
{
    if bytes.len() <= room.len() && at <= (room.len() - bytes.len()) as u64 {
        copy_at(room, at as usize, bytes);
    }
}

// The part of the room from a place on, of so many bytes or up to the end.
fn part(room: &[u8], from: u64, len: u64) -> &[u8]
    ensures { result.now ≡ take len (drop from room.now) }
{
    let rest = &room[room.len().min(from as usize)..];
    &rest[..rest.len().min(len as usize)]
}

// Whether all bytes are FF: eight at a time, as one number, then those that are left.
fn all_ff(part: &[u8]) -> bool
    ensures { result ≡ blank part.now }
{
    let (eights, rest) = part.as_chunks::<8>();
    eights.iter().all(|eight| u64::from_le_bytes(*eight) == 0xffff_ffff_ffff_ffff)
        && rest.iter().all(|byte| *byte == 0xff)
}

// Whether a part of the room is all FF.
pub fn is_blank(room: &[u8], from: u64, len: u64) -> bool
    ensures { result ≡ blank (take len (drop from room.now)) }
{
    all_ff(part(room, from, len))
}

// The first place in which a part and the reply differ, up to the shorter.
fn compare(part: &[u8], reply: &[u8]) -> Option<Difference>
    ensures { result ≡ differs_from 0 part.now reply.now }
{
    let i = part.iter().zip(reply).position(|(has, read)| has != read)?;
    Some(Difference {
        at: i as u64,
        has: part[i],
        read: reply[i],
    })
}

// Compares the first n bytes of the room, all of it if n is larger, with the reply, up to the shorter.
pub fn first_differs(room: &[u8], n: u64, reply: &[u8]) -> Option<Difference>
    ensures { result ≡ differs_from 0 (take n room.now) reply.now }
{
    compare(part(room, 0, n), reply)
}

// The payload of a transaction: a part of the lent room itself; nothing where it does not fit.
#[tactic(auto, unfolding(crate::specs::Room::part_of))]
pub fn payload(room: &[u8], from: u32, len: u64) -> &[u8]
    ensures { result.now ≡ part_of room.now from len }
{
    let at = from as usize;
    if at <= room.len() && len <= (room.len() - at) as u64 {
        return &room[at..at + len as usize];
    }
    &[]
}

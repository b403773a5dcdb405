// The modelled part as code, over a lent slice as its memory: a transaction's bytes go in, the reply and the next state come out.
#![tactic(auto)]

mod bytes;
mod erases;
mod memory;

ghost use Rattle.std.specs.Prelude.{◌≡◌, ℕ, ◌+◌, ◌-◌, ◌≤◌, cond, List, eqb, length, IfSome};
ghost use Rattle.nor_model.specs.Device.{status1, read_status, read_flags, page_program, read_memory, read_id, read_sfdp, silent, obeyed, taken, respond};
ghost use Rattle.nor_part.specs.Responds.{addressed_of, page_of, first_size, erases_of, part_of, state_of, Same};

// An erase: its opcode, and how many bytes it erases. One of no bytes counts as none.
#[derive(Clone, Copy)]
pub struct Erase {
    pub opcode: u8,
    pub size: u32,
}

// What a part is: address bytes, device page, whether 70 is offered, erases, and the bytes that 9F and 5A return. Its capacity is the
// length of its memory.
#[derive(Clone, Copy)]
pub struct Part<'a> {
    pub addressed: u8,
    pub page: u32,
    pub flagged: bool,
    pub erases: [Option<Erase>; 4],
    pub id: &'a [u8],
    pub sfdp: &'a [u8],
}

// Write latch, busy polls left.
#[derive(Clone, Copy)]
pub struct State {
    pub latch: bool,
    pub busy: u64,
}

impl Part<'_> {
    // The address bytes that it takes: at most 4.
    fn address_bytes(self) -> usize
        ensures { result ≡ addressed_of self.entry }
    {
        (self.addressed as usize).min(4)
    }

    // The device page, of a byte at least.
    fn device_page(self) -> u32
        ensures { result ≡ page_of self.entry }
    {
        self.page.max(1)
    }

    // How many bytes an opcode erases: those of the first erase that has it.
    #[tactic(auto, unfolding(crate::specs::Responds::first_size))]
    fn erased_by(self, op: u8) -> Option<u32>
        ensures size { result ≡ first_size self.entry.erases op }
        ensures some { IfSome result (λ size. 1 ≤ size) }
    {
        for entry in &self.erases {
            if let Some(erase) = entry
                && erase.opcode == op
                && 0 < erase.size
            {
                return Some(erase.size);
            }
        }
        None
    }

    // What 70 shows: ready in bit 7, where it is offered.
    fn flags(self, s: State) -> u8
        ensures { result ≡ cond self.entry.flagged (cond (eqb s.busy 0) 0x80 0) 0xFF }
    {
        match (self.flagged, s.busy) {
            (false, _) => 0xFF,
            (true, 0) => 0x80,
            (true, _) => 0,
        }
    }
}

impl State {
    // Each poll first lowers the busy polls left.
    fn lowered(self) -> State
        ensures { (result.latch ≡ self.latch) × (result.busy ≡ self.busy - 1) }
    {
        State {
            busy: self.busy.saturating_sub(1),
            ..self
        }
    }

    // What 05 shows: busy in bit 0, the latch in bit 1.
    fn status(self) -> u8
        ensures { result ≡ cond (eqb self.busy 0) 0 1 + cond self.latch 2 0 }
    {
        let busy = if self.busy == 0 { 0 } else { 1 };
        let latch = if self.latch { 2 } else { 0 };
        busy + latch
    }
}

// ---- the polls

// 05
#[tactic(auto, unfolding(nor_model::specs::Device::read_status, nor_model::specs::Device::status1))]
fn read_status(s: State, reply: &mut [u8]) -> State
    ensures { (m : List ℕ) → Same (read_status (state_of s m) (length reply.old)) (length m) result reply.new m }
{
    let next = s.lowered();
    reply.fill(next.status());
    next
}

// 70
#[tactic(auto, unfolding(nor_model::specs::Device::read_flags))]
fn read_flags(p: Part<'_>, s: State, reply: &mut [u8]) -> State
    ensures { (m : List ℕ) → Same (read_flags (part_of p.entry (length m)) (state_of s m) (length reply.old)) (length m) result reply.new m }
{
    let next = s.lowered();
    reply.fill(p.flags(next));
    next
}

// ---- the other commands

// Nothing happens, and nobody drives the bus: FF comes back.
fn silent(s: State, reply: &mut [u8]) -> State
    ensures { (m : List ℕ) → Same (silent (state_of s m) (length reply.old)) (length m) result reply.new m }
{
    reply.fill(0xFF);
    s
}

// 02
#[tactic(auto, unfolding(nor_model::specs::Device::page_program, nor_model::specs::Device::whole, nor_model::specs::Device::operate))]
fn page_program(
    p: Part<'_>,
    s: State,
    wait: u64,
    rest: &[u8],
    reply: &mut [u8],
    memory: &mut [u8],
) -> State
    ensures { Same (page_program (part_of p.entry (length memory.old)) wait (state_of s memory.old) rest.now (length reply.old)) (length memory.old) result reply.new memory.new }
{
    reply.fill(0xFF);
    let k = p.address_bytes();
    if k <= rest.len() && s.latch {
        let a = bytes::address_in(k, rest);
        memory::program(memory, p.device_page(), a, &rest[k..]);
        return State {
            latch: false,
            busy: wait,
        };
    }
    s
}

// 03, and 0B after a dummy.
#[tactic(auto, unfolding(nor_model::specs::Device::read_memory, nor_model::specs::Device::whole))]
fn read_memory(
    p: Part<'_>,
    s: State,
    dummies: u8,
    rest: &[u8],
    reply: &mut [u8],
    memory: &[u8],
) -> State
    requires { dummies ≤ 1 }
    ensures { Same (read_memory (part_of p.entry (length memory.now)) dummies (state_of s memory.now) rest.now (length reply.old)) (length memory.now) result reply.new memory.now }
{
    let k = p.address_bytes();
    if k + dummies as usize <= rest.len() {
        bytes::read(memory, bytes::address_in(k, rest), reply);
    } else {
        reply.fill(0xFF);
    }
    s
}

// 9F
#[tactic(auto, unfolding(nor_model::specs::Device::read_id))]
fn read_id(p: Part<'_>, s: State, reply: &mut [u8]) -> State
    ensures { (m : List ℕ) → Same (read_id (part_of p.entry (length m)) (state_of s m) (length reply.old)) (length m) result reply.new m }
{
    bytes::copy(p.id, 0, reply);
    s
}

// 5A
#[tactic(auto, unfolding(nor_model::specs::Device::read_sfdp, nor_model::specs::Device::whole))]
fn read_sfdp(p: Part<'_>, s: State, rest: &[u8], reply: &mut [u8]) -> State
    ensures { (m : List ℕ) → Same (read_sfdp (part_of p.entry (length m)) (state_of s m) rest.now (length reply.old)) (length m) result reply.new m }
{
    if 4 <= rest.len() {
        bytes::copy(p.sfdp, bytes::address_in(3, rest), reply);
    } else {
        reply.fill(0xFF);
    }
    s
}

// ---- a transaction
// Its arguments stay apart, and in no struct: the clauses name each before and after, in the words of nor_model.

// A command of a part that is not busy, but for its erases of blocks. 06 sets the latch; 99 and F0 clear it.
#[tactic(auto, unfolding(nor_model::specs::Device::obeyed, nor_model::specs::Device::write_enable, nor_model::specs::Device::clear_latch))]
fn obey(
    p: Part<'_>,
    s: State,
    wait: u64,
    op: u8,
    rest: &[u8],
    reply: &mut [u8],
    memory: &mut [u8],
) -> State
    ensures { Same (obeyed (part_of p.entry (length memory.old)) wait (state_of s memory.old) op rest.now (length reply.old)) (length memory.old) result reply.new memory.new }
{
    match op {
        0x06 => silent(State { latch: true, ..s }, reply),
        0x02 => page_program(p, s, wait, rest, reply, memory),
        0xC7 => erases::chip_erase(s, wait, reply, memory),
        0x03 => read_memory(p, s, 0, rest, reply, memory),
        0x0B => read_memory(p, s, 1, rest, reply, memory),
        0x9F => read_id(p, s, reply),
        0x5A => read_sfdp(p, s, rest, reply),
        0x99 | 0xF0 => silent(State { latch: false, ..s }, reply),
        _ => silent(s, reply),
    }
}

// An erase opcode, whatever else it may be; a poll; any other command.
#[tactic(auto, unfolding(nor_model::specs::Device::unless_busy))]
fn take(
    p: Part<'_>,
    s: State,
    wait: u64,
    op: u8,
    rest: &[u8],
    reply: &mut [u8],
    memory: &mut [u8],
) -> State
    ensures { Same (taken (erases_of p.entry op) (part_of p.entry (length memory.old)) wait (state_of s memory.old) op rest.now (length reply.old)) (length memory.old) result reply.new memory.new }
{
    match (p.erased_by(op), op) {
        (Some(size), _) if s.busy == 0 => {
            erases::block_erase(p, s, wait, size, rest, reply, memory)
        }
        (None, 0x05) => read_status(s, reply),
        (None, 0x70) => read_flags(p, s, reply),
        (None, _) if s.busy == 0 => obey(p, s, wait, op, rest, reply, memory),
        _ => silent(s, reply),
    }
}

// What the part does with a transaction: the bytes sent, its first the opcode, and a reply as long as asked. wait: how many polls
// an operation on the memory stays busy.
#[tactic(auto, unfolding(nor_model::specs::Device::respond))]
pub fn respond(
    p: Part<'_>,
    s: State,
    wait: u64,
    sent: &[u8],
    reply: &mut [u8],
    memory: &mut [u8],
) -> State
    ensures { Same (respond (part_of p.entry (length memory.old)) wait (state_of s memory.old) sent.now (length reply.old)) (length memory.old) result reply.new memory.new }
{
    match sent {
        [] => silent(s, reply),
        [op, rest @ ..] => take(p, s, wait, *op, rest, reply, memory),
    }
}

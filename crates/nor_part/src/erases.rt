// The erases: of a block, and of the chip.
ghost use Rattle.std.specs.Prelude.{◌≡◌, ◌≤◌, length};
ghost use Rattle.nor_model.specs.Device.{block_erase, chip_erase};
ghost use Rattle.nor_part.specs.Responds.{part_of, state_of, Same};

use crate::{Part, State, bytes, memory};

// An erase opcode.
#[tactic(auto, unfolding(nor_model::specs::Device::block_erase, nor_model::specs::Device::whole, nor_model::specs::Device::operate))]
pub fn block_erase(
    p: Part<'_>,
    s: State,
    wait: u64,
    size: u32,
    rest: &[u8],
    reply: &mut [u8],
    memory: &mut [u8],
) -> State
    requires { 1 ≤ size }
    ensures { Same (block_erase (part_of p.entry (length memory.old)) wait size (state_of s memory.old) rest.now (length reply.old)) (length memory.old) result reply.new memory.new }
{
    reply.fill(0xFF);
    let k = p.address_bytes();
    if k <= rest.len() && s.latch {
        memory::erase_block(memory, size, bytes::address_in(k, rest));
        return State {
            latch: false,
            busy: wait,
        };
    }
    s
}

// C7 sets all to FF.
#[tactic(auto, unfolding(nor_model::specs::Device::chip_erase, nor_model::specs::Device::operate))]
pub fn chip_erase(s: State, wait: u64, reply: &mut [u8], memory: &mut [u8]) -> State
    ensures { Same (chip_erase wait (state_of s memory.old) (length reply.old)) (length memory.old) result reply.new memory.new }
{
    reply.fill(0xFF);
    if s.latch {
        memory.fill(0xFF);
        return State {
            latch: false,
            busy: wait,
        };
    }
    s
}

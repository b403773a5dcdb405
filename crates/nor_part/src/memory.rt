// The memory: erased and programmed.
ghost use Rattle.std.specs.Prelude.{◌≡◌, ◌+◌, ◌%◌, ◌≤◌, ◌<◌, ◌^◌, length};
ghost use Rattle.nor_model.specs.Device.{Part, erased, onward, programmed};
ghost use Rattle.nor_part.specs.Responds.{mem_of, set_between};

// Sets the bytes from a cell on, up to another, to FF.
pub fn set_ff(memory: &mut [u8], from: usize, to: usize)
    requires { (from ≤ to) × (to ≤ length memory.old) }
    ensures { mem_of memory.new ≡ set_between from to (mem_of memory.old) }
{
    memory[from..to].fill(0xFF);
}

// Sets the aligned block that an address is in to FF.
pub fn erase_block(memory: &mut [u8], size: u32, a: u32)
    requires { 1 ≤ size }
    ensures { 1 ≤ length memory.old → mem_of memory.new ≡ erased size (a % length memory.old) (mem_of memory.old) }
{
    let capacity = memory.len();
    if capacity == 0 {
        return;
    }
    let block = size as usize;
    let cell = a as usize % capacity;
    let base = cell - cell % block;
    set_ff(memory, base, capacity.min(base + block));
}

// The address after an address: after the page's last comes its first.
#[tactic(auto, using(crate::proofs::Contents::page_before), unfolding(nor_model::specs::Device::onward))]
fn after(page: u32, a: u64) -> u64
    requires { (1 ≤ page) × (a < 2 ^ 63) }
    ensures { result ≡ onward page a }
{
    let next = a + 1;
    if next % (page as u64) == 0 {
        next - page as u64
    } else {
        next
    }
}

// ANDs data into the memory from an address on, wrapping in the device page.
pub fn program(memory: &mut [u8], page: u32, a: u32, data: &[u8])
    requires { 1 ≤ page }
    ensures { 1 ≤ length memory.old → (p : Part) → p.capacity ≡ length memory.old → p.page ≡ page → mem_of memory.new ≡ programmed p a «data».now (mem_of memory.old) }
{
    let capacity = memory.len() as u64;
    if capacity == 0 {
        return;
    }
    let mut place = a as u64;
    for byte in data {
        let cell = (place % capacity) as usize;
        memory[cell] &= *byte;
        place = after(page, place);
    }
}

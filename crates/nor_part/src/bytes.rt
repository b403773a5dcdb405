// Bytes on the wire: the address that was sent, and replies.
ghost use Rattle.std.specs.Prelude.{◌≡◌, ◌+◌, ◌%◌, ◌≤◌, length};
ghost use Rattle.nor_model.specs.Device.{bytes_from, address_in};
ghost use Rattle.nor_part.specs.Responds.{mem_of};

// The number of the first k bytes, the highest first.
pub fn address_in(k: usize, rest: &[u8]) -> u32
    requires { (k ≤ 4) × (k ≤ length rest.now) }
    ensures { result ≡ address_in k rest.now }
{
    // By patterns: what is stored byte by byte and read as a word waits for the stores.
    match &rest[..k] {
        [a] => u32::from_be_bytes([0, 0, 0, *a]),
        [a, b] => u32::from_be_bytes([0, 0, *a, *b]),
        [a, b, c] => u32::from_be_bytes([0, *a, *b, *c]),
        [a, b, c, d] => u32::from_be_bytes([*a, *b, *c, *d]),
        _ => 0,
    }
}

// A reply of fixed bytes from a place on; past their end comes FF.
pub fn copy(source: &[u8], at: u32, reply: &mut [u8])
    ensures { reply.new ≡ bytes_from (mem_of source.now) at (length reply.old) }
{
    if source.len() <= at as usize {
        reply.fill(0xFF);
        return;
    }
    for (i, byte) in reply.iter_mut().enumerate() {
        *byte = source.get(at as usize + i).copied().unwrap_or(0xFF);
    }
}

// The cell after a cell: after the last comes the first.
fn next_cell(cell: usize, capacity: usize) -> usize
    requires { cell + 1 ≤ capacity }
    ensures { result ≡ (cell + 1) % capacity }
{
    if cell + 1 == capacity { 0 } else { cell + 1 }
}

// A reply from the memory, from an address on: the part ignores the address bits that it does not have.
pub fn read(memory: &[u8], at: u32, reply: &mut [u8])
    ensures { reply.new ≡ bytes_from (λ i. mem_of memory.now (i % length memory.now)) at (length reply.old) }
{
    if memory.is_empty() {
        reply.fill(0xFF);
        return;
    }
    let mut cell = at as usize % memory.len();
    for byte in reply.iter_mut() {
        *byte = memory[cell];
        cell = next_cell(cell, memory.len());
    }
}

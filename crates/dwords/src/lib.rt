// Bytes and little-endian dwords of a lent slice. A byte that is not there reads as FF, as erased flash does.
#![tactic(auto)]

ghost use Rattle.std.specs.Prelude.{◌≡◌, ◌+◌, ◌*◌};
ghost use Rattle.dwords.specs.Dwords.{byte_at, le32, dword};

// A byte of a lent slice.
#[tactic(auto, unfolding(crate::specs::Dwords::byte_at))]
pub fn byte_at(s: &[u8], i: usize) -> u8
    ensures { result ≡ byte_at s.now i }
{
    s.get(i).copied().unwrap_or(255)
}

// The number of four bytes, the lowest first.
pub fn number(b0: u8, b1: u8, b2: u8, b3: u8) -> u32
    ensures { result ≡ b0 + 256 * (b1 + 256 * (b2 + 256 * b3)) }
{
    u32::from_le_bytes([b0, b1, b2, b3])
}

// The number of the four bytes from a place on.
#[tactic(auto, unfolding(crate::specs::Dwords::le32))]
pub fn number_at(s: &[u8], at: u16) -> u32
    ensures { result ≡ le32 s.now at }
{
    let i = at as usize;
    number(
        byte_at(s, i),
        byte_at(s, i + 1),
        byte_at(s, i + 2),
        byte_at(s, i + 3),
    )
}

// Dword n of a table, the first being 1 (0 counts as 1).
pub fn dword_at(t: &[u8], n: u8) -> u32
    ensures { result ≡ dword t.now n }
{
    if n == 0 {
        return number_at(t, 0);
    }
    number_at(t, 4 * (n as u16 - 1))
}

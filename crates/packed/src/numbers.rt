// Words from bytes, yes-or-no marks and longer numbers, and back. A part of a number is its rest or quotient: a bare `as` is refused
// where it may lose bits, and through to_le_bytes all the bytes would be named to keep some of them.
ghost use Rattle.std.specs.Prelude.{◌≡◌, ◌≤◌};
ghost use Rattle.packed.specs.Numbers.{byte0, halves, low_half, high_half, flags_word, flags_of, low_of, high_of, wide_of, word_at};

// The lowest byte of a word.
pub fn low_byte(x: u32) -> u8
    ensures { result ≡ byte0 x }
{
    (x % 256) as u8
}

// Two halves of a word.
pub fn halves_word(l: u16, h: u16) -> u32
    ensures { result ≡ halves l h }
{
    l as u32 + 65536 * (h as u32)
}

pub fn low_half(x: u32) -> u16
    ensures { result ≡ low_half x }
{
    (x % 65536) as u16
}

pub fn high_half(x: u32) -> u16
    ensures { result ≡ high_half x }
{
    (x / 65536) as u16
}

// A word of four marks.
pub fn flags_word(a: bool, b: bool, c: bool, d: bool) -> u32
    ensures { result ≡ flags_word a b c d }
{
    u32::from_le_bytes([u8::from(a), u8::from(b), u8::from(c), u8::from(d)])
}

pub fn flags_of(x: u32) -> [bool; 4]
    ensures { result ≡ flags_of x }
{
    let [a, b, c, d] = x.to_le_bytes();
    [a == 1, b == 1, c == 1, d == 1]
}

// A number of 64 bits as two words.
pub fn low(n: u64) -> u32
    ensures { result ≡ low_of n }
{
    (n % 0x1_0000_0000) as u32
}

pub fn high(n: u64) -> u32
    ensures { result ≡ high_of n }
{
    (n / 0x1_0000_0000) as u32
}

pub fn wide(l: u32, h: u32) -> u64
    ensures { result ≡ wide_of l h }
{
    l as u64 + 0x1_0000_0000 * (h as u64)
}

// The word of the four bytes from a place on; a byte that is not there reads as 0.
pub fn word_at(b: &[u8], i: usize) -> u32
    requires { i ≤ 252 }
    ensures { result ≡ word_at b.now i }
{
    // Where all four bytes are there, one test tells.
    if i + 4 <= b.len() {
        u32::from_le_bytes([b[i], b[i + 1], b[i + 2], b[i + 3]])
    } else {
        u32::from_le_bytes(std::array::from_fn(|k| b.get(i + k).copied().unwrap_or(0)))
    }
}

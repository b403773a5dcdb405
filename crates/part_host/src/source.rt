// The random source: splitmix64, as in tools/oracle.
use std::array;

#[derive(Clone, Copy)]
pub struct Source {
    pub state: u64,
}

// Six numbers.
pub type Numbers = [u64; 6];

impl Source {
    // The source after this one.
    pub fn next(self) -> Source {
        Source {
            state: self.state.wrapping_add(0x9E37_79B9_7F4A_7C15),
        }
    }

    // The number of its state.
    pub fn number(self) -> u64 {
        let a = (self.state ^ (self.state >> 30)).wrapping_mul(0xBF58_476D_1CE4_E5B9);
        let b = (a ^ (a >> 27)).wrapping_mul(0x94D0_49BB_1331_11EB);
        b ^ (b >> 31)
    }

    // Moves on; the number of the state there.
    pub fn draw(&mut self) -> u64 {
        *self = self.next();
        self.number()
    }

    pub fn draw_six(&mut self) -> Numbers {
        array::from_fn(|_| self.draw())
    }

    // Random bytes, by a copy of the source: it stays where it is.
    pub fn fill(self, bytes: &mut [u8]) {
        let mut source = self;
        for byte in bytes.iter_mut() {
            *byte = (source.draw() % 256) as u8;
        }
    }
}

// One of so many numbers, the lowest being low.
pub fn among(x: u64, low: u32, count: u32) -> u32 {
    if count == 0 {
        return low;
    }
    low.wrapping_add((x % (count as u64)) as u32)
}

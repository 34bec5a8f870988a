//! Numbers in no order, without a list of them.
use super::random::mixed;

/// The numbers below a size, each once, in an order that a seed determines.
#[derive(Clone, Copy)]
pub struct Drawn {
    seed: u64,
    size: u64,
    /// The least power of two above the size, less one.
    pub last: u64,
}

impl Drawn {
    pub fn new(seed: u64, size: u64) -> Self {
        let mut last = size;
        for shift in [1, 2, 4, 8, 16, 32] {
            last = last | (last >> shift);
        }
        Drawn {
            seed: mixed(seed),
            size,
            last,
        }
    }

    /// The number at a place from 0 to `last`, if there is one: almost half of the places may have
    /// none. Each step maps the numbers up to `last` one to one.
    #[inline]
    pub fn at(&self, place: u64) -> Option<u64> {
        let mut number = (place ^ self.seed) & self.last;
        number = number.wrapping_mul(0x9E37_79B9_7F4A_7C15) & self.last;
        number = number ^ (number >> 7);
        number = number.wrapping_mul(0xBF58_476D_1CE4_E5B9) & self.last;
        number = number ^ (number >> 9);
        number = number.wrapping_mul(0x94D0_49BB_1331_11EB) & self.last;
        number = number ^ (number >> 5);
        if number < self.size {
            Some(number)
        } else {
            None
        }
    }
}

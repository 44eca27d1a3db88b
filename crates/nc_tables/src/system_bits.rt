//! Bits of the numbers of autonomous systems.

ghost use Rattle.std.specs.Prelude.{◌≡◌, ◌==◌, ◌%◌, ◌||◌, ℕ, false};
ghost use Rattle.nc_tables.specs.SystemBits.{any_alike, has_bit};

// A bit for each remainder modulo 256. A number whose bit isn't set is none of those whose bits
// were set; one whose bit is set may be another with the same remainder.
#[derive(Clone, Copy)]
pub(crate) struct SystemBits {
    words: [u64; 4],
}

impl SystemBits {
    // Those of no number.
    pub(crate) fn none() -> SystemBits
        ensures { (n : ℕ) → has_bit result n ≡ false }
    {
        SystemBits { words: [0; 4] }
    }

    // A number that the same bits have in common, and others mostly don't.
    pub(crate) fn digest(&self) -> u64 {
        let [first, second, third, fourth] = self.words;
        first ^ second.rotate_left(13) ^ third.rotate_left(29) ^ fourth.rotate_left(43)
    }

    // Whether the bit of a number is set.
    pub(crate) fn has(&self, number: u32) -> bool
        ensures { result ≡ has_bit self.now number }
    {
        (self.words[(number / 64 % 4) as usize] >> (number % 64)) & 1 == 1
    }

    // These, and that of a number.
    fn with(self, number: u32) -> SystemBits
        ensures { (n : ℕ) → has_bit result n ≡ (number % 256 == n % 256 || has_bit self n) }
    {
        let mut words = self.words;
        words[(number / 64 % 4) as usize] |= 1 << (number % 64);
        SystemBits { words }
    }

    // These, and those of several numbers.
    pub(crate) fn with_all(self, numbers: &[u32]) -> SystemBits
        ensures { (n : ℕ) → has_bit result n ≡ (any_alike n numbers.now || has_bit self n) }
    {
        let mut bits = self;
        'numbers: for number in numbers {
            bits = bits.with(*number);
        }
        bits
    }
}

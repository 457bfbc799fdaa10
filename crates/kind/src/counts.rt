// The counts kind: integers modulo a power of two.
ghost use Rattle.std.specs.Prelude.{◌≡◌, ◌%◌, ◌^◌, MatchResult};
ghost use Rattle.kind.specs.Counts.{CountsSize, counts as ring_of_counts};
ghost use Rattle.kind.specs.Making.{bad_kind};
ghost use Rattle.kind.specs.CountsLaws.{counts_lawful};

use super::{Kind, bad_kind};
use refusal::Refusal;

const LEAST_WIDTH: u32 = 1;

const MOST_WIDTH: u32 = 32;

// A counts kind: the codes are the numbers of `width` bits, and sums and products wrap around.
#[derive(Clone, Copy, PartialEq, Eq, Debug)]
pub struct Counts {
    width: u32,
    ghost sized: { CountsSize width },
}

impl Counts {
    // The counts of a width from 1 to 32; any other is refused.
    pub fn new(width: u32) -> Result<Self, Refusal>
        ensures { MatchResult result
            (λ c. CountsSize width × (c.width ≡ width))
            (λ e. ¬ CountsSize width × (e ≡ bad_kind width)) }
    {
        if !(LEAST_WIDTH..=MOST_WIDTH).contains(&width) {
            return Err(bad_kind(width));
        }
        Ok(Counts { width })
    }

    // How many codes there are.
    fn codes(&self) -> u64
        ensures { result ≡ 2 ^ self.now.width }
    {
        1u64 << self.width
    }

    // The code that a number wraps around to.
    fn wrapped(&self, n: u64) -> u32
        ensures { result ≡ n % 2 ^ self.now.width }
    {
        (n % self.codes()) as u32
    }
}

// The test for codes stands in each call: as a function it would take a closure and be no shorter, and one over every kind could not be called
// from an `impl Kind`.
impl Kind for Counts {
    ghost ring = { λ c. ring_of_counts c.width };

    ghost lawful = { λ c. counts_lawful c.width c.sized };

    fn is_code(&self, n: u32) -> bool {
        u64::from(n) < self.codes()
    }

    fn one(&self) -> u32 {
        1
    }

    fn base(&self) -> u32 {
        self.wrapped(2)
    }

    fn sum(&self, a: u32, b: u32) -> u32 {
        if self.is_code(a) && self.is_code(b) {
            self.wrapped(u64::from(a) + u64::from(b))
        } else {
            0
        }
    }

    fn negative(&self, a: u32) -> u32 {
        if self.is_code(a) {
            self.wrapped(self.codes() - u64::from(a))
        } else {
            0
        }
    }

    fn product(&self, a: u32, b: u32) -> u32 {
        if self.is_code(a) && self.is_code(b) {
            self.wrapped(u64::from(a) * u64::from(b))
        } else {
            0
        }
    }
}

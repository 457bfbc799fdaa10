// Kinds of coefficient: commutative rings whose elements, the codes, are numbers of 32 bits.
#![tactic(auto)]

ghost use Rattle.std.specs.Prelude.{◌≡◌};
ghost use Rattle.algebra.specs.Ring.{Ring, Lawful};
ghost use Rattle.kind.specs.Making.{bad_kind};

use refusal::{Fault, Layer, Refusal};

pub mod counts;
pub mod field;
pub mod multiples;
pub mod powers;
mod repeated;

// A kind of coefficient: a commutative ring whose elements are codes, numbers below 2^32, 0 among them. `ring` is its meaning, and every
// implementation owes the laws. At a number that is no code, sum, negative and product answer 0: a rule of the project (docs/KINDS.md).
pub trait Kind {
    ghost ring: { Self → Ring };

    // Whether a number is a code.
    fn is_code(&self, n: u32) -> bool
        ensures { result ≡ (ring self.now).code n };

    // The code that is neutral in products.
    fn one(&self) -> u32
        ensures { result ≡ (ring self.now).one };

    // The code whose powers weigh the positions of a word.
    fn base(&self) -> u32
        ensures { result ≡ (ring self.now).base };

    fn sum(&self, a: u32, b: u32) -> u32
        ensures { result ≡ (ring self.now).sum a b };

    fn negative(&self, a: u32) -> u32
        ensures { result ≡ (ring self.now).negative a };

    fn product(&self, a: u32, b: u32) -> u32
        ensures { result ≡ (ring self.now).product a b };

    ghost lawful: { (k : Self) → Lawful (ring k) };
}

// The refusal of a size or modulus that makes no kind.
fn bad_kind(size: u32) -> Refusal
    ensures { result ≡ bad_kind size }
{
    Refusal {
        fault: Fault::BadKind,
        place: size as usize,
        layer: Layer::Kind,
    }
}

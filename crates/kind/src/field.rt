// The field kind: polynomials over the two-element field, modulo one of a degree from 2 to 8.
ghost use Rattle.std.specs.Prelude.{◌≡◌, ◌^◌, ◌<◌, MatchResult};
ghost use Rattle.algebra.specs.Gf2.{◌⊗◌, remainder, OnlyRemainder};
ghost use Rattle.kind.specs.Field.{FieldSize, field as ring_of_field};
ghost use Rattle.kind.specs.Making.{bad_kind};
ghost use Rattle.kind.specs.FieldLaws.{field_lawful};

use super::{Kind, bad_kind};
use algebra::gf2::carryless_product;
use refusal::Refusal;

const LEAST_DEGREE: u32 = 2;

const MOST_DEGREE: u32 = 8;

// How long the product of two codes can be.
const PRODUCT_BITS: u32 = 15;

// A field kind: the codes are the polynomials of a degree below `degree`, and products are taken modulo `modulus`.
#[derive(Clone, Copy, PartialEq, Eq, Debug)]
pub struct Field {
    degree: u32,
    modulus: u32,
    ghost sized: { FieldSize degree modulus },
}

impl Field {
    // The field kind of a degree from 2 to 8 and a modulus of that degree, bit i being the coefficient of X^i; any other is refused.
    pub fn new(degree: u32, modulus: u32) -> Result<Self, Refusal>
        ensures { MatchResult result
            (λ f. FieldSize degree modulus × (f.degree ≡ degree) × (f.modulus ≡ modulus))
            (λ e. ¬ FieldSize degree modulus × (e ≡ bad_kind degree)) }
    {
        if !(LEAST_DEGREE..=MOST_DEGREE).contains(&degree) {
            return Err(bad_kind(degree));
        }
        let least = 1u32 << degree;
        if !(least..2 * least).contains(&modulus) {
            return Err(bad_kind(degree));
        }
        Ok(Field { degree, modulus })
    }

    // How many codes there are.
    fn codes(&self) -> u32
        ensures { result ≡ 2 ^ self.now.degree }
    {
        1u32 << self.degree
    }

    // The remainder by the modulus of a polynomial as long as a product: multiples of the modulus are taken away, the highest first.
    fn reduced(&self, x: u16) -> u32
        requires { x < 2 ^ 15 }
        ensures value { result ≡ remainder self.now.degree self.now.modulus x }
        ensures only { OnlyRemainder self.now.degree self.now.modulus x result }
    {
        let mut rest = u32::from(x);
        for i in (self.degree..PRODUCT_BITS).rev() {
            if (rest >> i) % 2 == 1 {
                rest ^= self.modulus << (i - self.degree);
            }
        }
        rest
    }
}

// The test for codes stands in each call: as a function it would take a closure and be no shorter, and one over every kind could not be called
// from an `impl Kind`.
impl Kind for Field {
    ghost ring = { λ f. ring_of_field f.degree f.modulus };

    ghost lawful = { λ f. field_lawful f.degree f.modulus f.sized };

    fn is_code(&self, n: u32) -> bool {
        n < self.codes()
    }

    fn one(&self) -> u32 {
        1
    }

    fn base(&self) -> u32 {
        2
    }

    fn sum(&self, a: u32, b: u32) -> u32 {
        if self.is_code(a) && self.is_code(b) {
            a ^ b
        } else {
            0
        }
    }

    fn negative(&self, a: u32) -> u32 {
        if self.is_code(a) { a } else { 0 }
    }

    // The second clause says of codes what the ring's product is: the one remainder of a · b by the modulus.
    fn product(&self, a: u32, b: u32) -> u32
        ensures ring { result ≡ (ring_of_field self.now.degree self.now.modulus).product a b }
        ensures remainder { a < 2 ^ self.now.degree → b < 2 ^ self.now.degree
            → OnlyRemainder self.now.degree self.now.modulus (a ⊗ b) result }
    {
        if self.is_code(a) && self.is_code(b) {
            self.reduced(carryless_product(a as u8, b as u8))
        } else {
            0
        }
    }
}

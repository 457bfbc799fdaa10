// Polynomials over the two-element field, as numbers: bit i of a number is the coefficient of X^i, and the sum is exclusive or.
ghost use Rattle.std.specs.Prelude.{◌≡◌, ◌^◌, ◌<◌};
ghost use Rattle.algebra.specs.Gf2.{◌⊗◌, ProductLaw};

// The product of two polynomials: long multiplication by the digits of b, the highest first, with exclusive or in the place of every sum, so
// that nothing is carried. That ⊗ is the product of polynomials, and the only one, is part of the promise.
pub fn carryless_product(a: u8, b: u8) -> u16
    ensures value { result ≡ a ⊗ b }
    ensures bound { result < 2 ^ 15 }
    ensures law { ProductLaw }
{
    let mut sum = 0;
    for i in (0..u8::BITS).rev() {
        sum *= 2;
        if (b >> i) % 2 == 1 {
            sum ^= u16::from(a);
        }
    }
    sum
}

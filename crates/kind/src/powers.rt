// Powers of the base, proved from the laws of a kind alone.
ghost use Rattle.std.specs.Prelude.{◌≡◌};
ghost use Rattle.algebra.specs.Ring.{Code};
ghost use Rattle.algebra.specs.Repeated.{power as power_of, Powers};

use super::Kind;
use super::repeated::repeated;

// The base to an exponent, the weight of a position in a word. That exponents add up is part of the promise.
pub fn base_power<K: Kind>(kind: &K, exponent: u32) -> u32
    ensures value { result ≡ power_of (K.ring kind.now) (K.ring kind.now).base exponent }
    ensures law { Powers (K.ring kind.now) }
{
    power(kind, kind.base(), exponent)
}

// A code to an exponent, by squaring.
fn power<K: Kind>(kind: &K, code: u32, exponent: u32) -> u32
    requires { Code (K.ring kind.now) code }
    ensures value { result ≡ power_of (K.ring kind.now) code exponent }
    ensures law { Powers (K.ring kind.now) }
{
    repeated(|a, b| kind.product(a, b), kind.one(), exponent, code)
}

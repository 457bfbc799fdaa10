// Integer multiples of a code, proved from the laws of a kind alone. A kind and a code stay two parameters, since a code is a number that
// callers keep without its kind.
ghost use Rattle.std.specs.Prelude.{◌≡◌};
ghost use Rattle.algebra.specs.Repeated.{many as many_of, multiple as multiple_of, Multiples};

use super::Kind;
use super::repeated::repeated;

// An integer times a code, by sum and negative; 0 at a number that is no code. That this is the multiple is part of the promise.
pub fn multiple<K: Kind>(kind: &K, times: i32, code: u32) -> u32
    ensures value { result ≡ multiple_of (K.ring kind.now) times code }
    ensures law { Multiples (K.ring kind.now) }
{
    let sum = many(kind, times.unsigned_abs(), code);
    if times < 0 { kind.negative(sum) } else { sum }
}

// A code taken some times, by doubling.
fn many<K: Kind>(kind: &K, times: u32, code: u32) -> u32
    ensures value { result ≡ many_of (K.ring kind.now) times code }
    ensures law { Multiples (K.ring kind.now) }
{
    if !kind.is_code(code) {
        return 0;
    }
    repeated(|a, b| kind.sum(a, b), 0, times, code)
}

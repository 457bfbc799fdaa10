// Slots that a caller lends.
ghost use Rattle.std.specs.Prelude.{Some, codes};

use std::error::Error;
use std::fmt;

// A slot holds a key with its number. What a slot holds before it is lent does not matter.
#[derive(Clone, Copy, PartialEq, Eq, Debug)]
pub struct Slot<K> {
    pub key: K,
    pub number: u32,
}

// The answer of a write that finds no room.
#[derive(Clone, Copy, PartialEq, Eq, Debug)]
pub struct Full;

// By hand, since a derive promises no text.
impl fmt::Display for Full {
    ghost output = { λ _. Some (codes "no room for one more") };

    fn fmt<W: fmt::Write>(&self, f: &mut fmt::Formatter<W>) -> fmt::Result {
        f.write_str("no room for one more")
    }
}

impl Error for Full {}

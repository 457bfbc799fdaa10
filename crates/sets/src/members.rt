// Which ranks a set has: the empty set, one rank more or less, two sets as one.
ghost use Rattle.std.specs.Prelude.{◌≡◌, bit_or};
ghost use Rattle.algebra.specs.Sets.{has, within, inserted, removed, Membership};
ghost use Rattle.sets.specs.Numbers.{number};

use super::{RANKS, RankSet, WORDS};
use std::array;

impl RankSet {
    pub fn empty() -> RankSet
        ensures { number result ≡ 0 }
    {
        RankSet { words: [0; WORDS] }
    }

    // No set has a rank of 512 or more. What `has` says of the other calls is part of the promise.
    pub fn holds(&self, rank: u16) -> bool
        ensures value { result ≡ has (number self.now) rank }
        ensures law { Membership }
    {
        rank < RANKS && self.words[usize::from(rank / 64)] & (1 << (rank % 64)) != 0
    }

    // A rank of 512 or more changes nothing.
    pub fn insert(&mut self, rank: u16)
        ensures { number self.new ≡ inserted (number self.old) rank }
    {
        if rank < RANKS {
            self.words[usize::from(rank / 64)] |= 1 << (rank % 64);
        }
    }

    // A rank that the set does not have changes nothing.
    pub fn remove(&mut self, rank: u16)
        ensures { number self.new ≡ removed (number self.old) rank }
    {
        if rank < RANKS {
            self.words[usize::from(rank / 64)] &= !(1 << (rank % 64));
        }
    }

    // Takes in the ranks of another set.
    pub fn join(&mut self, other: &RankSet)
        ensures { number self.new ≡ bit_or (number self.old) (number other.now) }
    {
        self.words = array::from_fn(|i| self.words[i] | other.words[i]);
    }

    // Whether another set has each rank of this one: by all words at once, which takes less time than to stop at the first that fails.
    pub fn is_within(&self, other: &RankSet) -> bool
        ensures { result ≡ within (number self.now) (number other.now) }
    {
        let missing = self
            .words
            .iter()
            .zip(&other.words)
            .fold(0, |bits, (word, wider)| bits | (word & !wider));
        missing == 0
    }
}

// Sets of ranks from 0 to 511, as eight words.
#![tactic(auto)]

ghost use Rattle.sets.specs.Words.{Sized};

pub mod hash;
pub mod members;
pub mod order;
pub mod ranks;

// Every rank is below this.
pub const RANKS: u16 = 512;

const WORDS: usize = 8;

// Bit r % 64 of word r / 64 stands for rank r. A ghost field, and no `impl Model` with the number as its value: so the laws of the stores,
// which speak of values alone, know of each set that its number is below 2^512.
#[derive(Clone, Copy, Debug)]
pub struct RankSet {
    words: [u64; WORDS],
    ghost sized: { Sized words },
}

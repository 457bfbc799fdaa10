// The ranks of a set: the lowest, the highest, all in order.
ghost use Rattle.std.specs.Prelude.{◌≡◌, ◌≢◌, ◌-◌, ◌≤◌, ◌<◌, min, length, slice_index, MatchOption, IfNone, IfSome};
ghost use Rattle.algebra.specs.Sets.{NoneFrom, LowestFrom, Highest, ranks as ranks_of};
ghost use Rattle.sets.specs.Numbers.{number};
ghost use Rattle.sets.specs.Ranks.{upcoming};
ghost use Rattle.sets.specs.Words.{Blank};
ghost use Rattle.std.specs.Iterator.{YieldsFirst, at_most};

use super::{RankSet, WORDS};

impl RankSet {
    // None for the empty set, as in `highest`.
    #[tactic(auto, using(crate::proofs::Numbers::none_zero))]
    pub fn lowest(&self) -> Option<u16>
        ensures { MatchOption result (number self.now ≡ 0) (λ k. LowestFrom 0 (number self.now) k) }
    {
        self.lowest_from(0)
    }

    pub fn highest(&self) -> Option<u16>
        ensures { MatchOption result (number self.now ≡ 0) (λ k. Highest (number self.now) k) }
    {
        let i = self.words.iter().rposition(|&word| word != 0)?;
        Some(i as u16 * 64 + self.words[i].ilog2() as u16)
    }

    // The ranks, rising.
    pub fn ranks(&self) -> Ranks
        ensures { upcoming result ≡ ranks_of (number self.now) }
    {
        Ranks {
            set: *self,
            from: 0,
        }
    }

    // The lowest rank from `from` on.
    fn lowest_from(&self, from: u16) -> Option<u16>
        ensures { MatchOption result (NoneFrom from (number self.now)) (λ k. LowestFrom from (number self.now) k) }
    {
        let first = usize::from(from / 64);
        let above = self.words.get(first)? >> (from % 64);
        if above != 0 {
            return Some(from + above.trailing_zeros() as u16);
        }
        let i = self.word_from(first + 1)?;
        Some(i as u16 * 64 + self.words[i].trailing_zeros() as u16)
    }

    // The lowest word from `from` on that is not 0.
    fn word_from(&self, from: usize) -> Option<usize>
        ensures none { IfNone result (Blank from 8 self.now.words) }
        ensures in_range { IfSome result (λ i. (from ≤ i) × (i < 8)) }
        ensures not_zero { IfSome result (λ i. slice_index self.now.words i ≢ 0) }
        ensures none_below { IfSome result (λ i. Blank from i self.now.words) }
    {
        (from..WORDS).find(|&i| self.words[i] != 0)
    }
}

// The ranks of a set from one on, rising.
#[derive(Drop)]
pub struct Ranks {
    set: RankSet,
    from: u16,
}

impl Iterator for Ranks {
    type Item = u16;

    ghost next_gives = { YieldsFirst upcoming };

    // Two bounds: how many ranks are left, and 512, which a caller knows of every set.
    ghost remaining = { λ s. at_most (min (512 - s.from) (length (upcoming s))) };

    fn next(&mut self) -> Option<u16> {
        let rank = self.set.lowest_from(self.from)?;
        self.from = rank + 1;
        Some(rank)
    }
}

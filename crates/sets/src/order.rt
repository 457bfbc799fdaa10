// Sets are equal, and are ordered, as their numbers: the higher of two has the highest rank in which they differ.
ghost use Rattle.std.specs.Prelude.{◌≡◌, ◌≢◌, ◌+◌, ◌<◌, Some, IfNone, IfSome, slice_index, ◌==◌, refl};
ghost use Rattle.std.specs.Ordering.{MatchOrdering, nat_cmp};
ghost use Rattle.algebra.specs.Sets.{Higher};
ghost use Rattle.sets.specs.Numbers.{number};
ghost use Rattle.sets.specs.Words.{SameFrom};
ghost use Rattle.std.specs.Cmp.Rules.{comparing};
ghost use Rattle.std.proofs.Common.{rules};
ghost use Rattle.std.specs.Cmp.{partial_equiv_from_equiv, partial_order_from_agreeing_total};

use super::{RankSet, WORDS};
use std::cmp::Ordering;

impl RankSet {
    // What `cmp` answers. The second clause says in ranks what the first says in numbers. A match, since `map_or` would join both cases into one goal.
    pub fn compare(&self, other: &RankSet) -> Ordering
        ensures numbers { MatchOrdering result (number self.now < number other.now) (number self.now ≡ number other.now) (number other.now < number self.now) }
        ensures ranks { MatchOrdering result (Higher (number other.now) (number self.now)) (number self.now ≡ number other.now) (Higher (number self.now) (number other.now)) }
    {
        match self.differing_word(other) {
            None => Ordering::Equal,
            Some(i) => self.words[i].cmp(&other.words[i]),
        }
    }

    // The highest word in which two sets differ. To compare the reversed iterators is shorter, and takes four times as long.
    fn differing_word(&self, other: &RankSet) -> Option<usize>
        ensures same { IfNone result (SameFrom 0 self.now.words other.now.words) }
        ensures in_range { IfSome result (λ i. i < 8) }
        ensures differs { IfSome result (λ i. slice_index self.now.words i ≢ slice_index other.now.words i) }
        ensures same_above { IfSome result (λ i. SameFrom (i + 1) self.now.words other.now.words) }
    {
        (0..WORDS).rev().find(|&i| self.words[i] != other.words[i])
    }
}

// By hand: a derived order would compare the lowest word first, and a derived `==` would promise equal words, where callers know numbers.
impl PartialEq for RankSet {
    ghost eq = { λ a b. number a == number b };

    ghost laws = { partial_equiv_from_equiv (Prim.search (comparing, rules)) };

    // The highest word first, since `==` of the words comes to it last, and sets of high ranks differ there.
    fn eq(&self, other: &RankSet) -> bool {
        self.words[WORDS - 1] == other.words[WORDS - 1] && self.words == other.words
    }
}

impl Eq for RankSet {
    ghost laws = { Prim.search (comparing, rules) };
}

impl PartialOrd for RankSet {
    ghost partial_cmp = { λ a b. Some (nat_cmp (number a) (number b)) };

    ghost laws = { partial_order_from_agreeing_total (λ a b. nat_cmp (number a) (number b)) (Prim.search (comparing, rules)) (λ _ _. refl) (Prim.search (comparing, rules)) };

    fn partial_cmp(&self, other: &RankSet) -> Option<Ordering> {
        Some(self.cmp(other))
    }
}

impl Ord for RankSet {
    ghost cmp = { λ a b. nat_cmp (number a) (number b) };

    ghost total = { Prim.search (comparing, rules) };

    ghost matches_partial_cmp = { Prim.search (comparing, rules) };

    ghost matches_eq = { Prim.search (comparing, rules) };

    fn cmp(&self, other: &RankSet) -> Ordering {
        self.compare(other)
    }
}

// A hash of a set, by its words: a method and no `impl Hash`, so that contracts can name it as a function of the set's number.
ghost use Rattle.std.specs.Prelude.{◌≡◌};
ghost use Rattle.sets.specs.Hash.{spread as spread_of, mix as mixed, hash as hash_of};
ghost use Rattle.sets.specs.Numbers.{number};

use super::RankSet;

const MULTIPLIER: u64 = 0x9E37_79B9_7F4A_7C15;

impl RankSet {
    pub fn hash(&self) -> u64
        ensures { result ≡ hash_of (number self.now) }
    {
        self.words.iter().copied().fold(0, mix)
    }
}

// Spread twice, since once leaves a high bit of the word in few bits of the hash.
fn mix(h: u64, word: u64) -> u64
    ensures { result ≡ mixed h word }
{
    spread(spread(h ^ word))
}

fn spread(x: u64) -> u64
    ensures { result ≡ spread_of x }
{
    let y = x.wrapping_mul(MULTIPLIER);
    y ^ (y >> 32)
}

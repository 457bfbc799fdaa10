// Terms of a claim.

// A factor of a term: the one, or a word by its number. No `Option` of a word, since the one is a factor and not a missing one.
#[derive(Clone, Copy, Debug, Default, Eq, PartialEq)]
pub enum Factor {
    #[default]
    One,
    Word(u8),
}

// A coefficient times two factors.
#[derive(Clone, Copy, Debug, Default, Eq, PartialEq)]
pub struct Term {
    pub coefficient: u32,
    pub left: Factor,
    pub right: Factor,
}

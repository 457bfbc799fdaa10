// Labels, each with its number, in a table over lent slots.
use crate::table::Table;

pub type Labels<'a> = Table<'a, u16>;

// The bucket table: a store whose terms lie in lent records, spread over buckets by their sets and chained within each.
#![tactic(auto)]

pub mod bucket;
mod chains;
pub mod term;

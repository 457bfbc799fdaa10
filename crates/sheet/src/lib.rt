// Netlists as they are read: gates, words and claims on a sheet, and what declares them.
#![tactic(auto)]

pub mod bounded;
pub mod claims;
pub mod coefficients;
pub mod draft;
pub mod gate;
pub mod open;
pub mod term;

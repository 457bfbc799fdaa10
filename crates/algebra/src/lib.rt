// Mathematics that the layers share: rings of codes and their laws, polynomials over the two-element field.
#![tactic(auto)]

pub mod gf2;

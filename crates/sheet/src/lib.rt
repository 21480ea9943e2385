// The figures of a house as lines of text.
#![tactic(auto)]

pub mod lines;
pub mod member;
pub mod overview;

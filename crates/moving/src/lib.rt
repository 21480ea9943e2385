// The events that move cash and shares on the book, or set a closing price.
#![tactic(auto)]

pub mod accounts;
pub mod pricing;

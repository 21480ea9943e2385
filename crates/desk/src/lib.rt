// The desk of a house: its accounts, what it looks at before it acts, and how a member stands.
#![tactic(auto)]

pub mod accounts;
pub mod judging;
pub mod standing;

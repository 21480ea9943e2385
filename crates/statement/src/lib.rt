// The state of a house and the balances of a book, as they are told and shown.
#![tactic(auto)]

pub mod account;
pub mod figures;
pub mod row;

// Trades: judged as such, then by the lines and positions that they meet, then netted into the register.
#![tactic(auto)]

pub mod judging;
pub mod netting;

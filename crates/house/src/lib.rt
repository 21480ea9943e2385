// The house: figures over any book and any rank, its opening, its events and its questions.
#![tactic(auto)]

mod asking;
mod events;
pub mod house;
mod making;
mod opening;

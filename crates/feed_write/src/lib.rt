#![tactic(auto)]

pub mod fault;
pub mod law;
#[cfg(test)]
mod tests;
pub mod write;

// The script that the program `settle` reads: a line's bytes to a command, to nothing, or to what is wrong with it.
#![tactic(auto)]

pub mod command;
pub mod line;
pub mod misread;
mod number;
pub mod reader;
#[cfg(test)]
mod tests;
mod words;

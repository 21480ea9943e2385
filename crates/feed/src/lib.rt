#![tactic(auto)]

pub mod entries;
pub mod entry;
pub mod fault;
pub mod feed;
mod reader;

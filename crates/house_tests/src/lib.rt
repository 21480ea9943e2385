// A house over a table, as its caller sees it.
#![tactic(auto)]

#[cfg(test)]
mod by_type;
#[cfg(test)]
mod full;
#[cfg(test)]
mod sums;
#[cfg(test)]
mod tests;

// Ranks: which line is served first.
#![tactic(auto)]

ghost use Rattle.std.specs.Prelude.{◌≡◌, ℕ, Bool};
ghost use Rattle.rank.specs.declared.claim.Claim.{Claim};
ghost use Rattle.rank.specs.Laws.{Lawful};

use crate::claim::Claim;

pub mod annex;
pub mod claim;
pub mod first;
pub mod former;
pub mod key;
pub mod laws;

/// Which of two lines of one side, due day and security goes before the other.
/// It is told from their claims and the settlement price of that due day and security alone.
pub trait Rank {
    /// The relation: whether the first line goes before the second, at a settlement price.
    ghost goes: { Self → ℕ → Claim → Claim → Bool };

    /// Whether `a` goes before `b`. Any numbers are answered.
    fn before(&self, settlement: u32, a: &Claim, b: &Claim) -> bool
        ensures { result ≡ goes self.now settlement a.now b.now };

    /// The laws that every rank keeps, at each settlement price.
    ghost lawful: { (r : Self) (p : ℕ) → Lawful (goes r p) };
}

#[cfg(test)]
mod tests;

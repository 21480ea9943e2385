ghost use Rattle.std.specs.Prelude.{◌≡◌};
ghost use Rattle.rank.specs.Ranks.{annex_goes, draw_of};
ghost use Rattle.rank.specs.Relations.{annex_lawful};

use crate::Rank;
use crate::claim::Claim;
use crate::key::Key;

/// The Annex rank: the better order price first, then the smaller netted size, then the smaller draw.
/// The better price is the higher among lines that receive, the lower among lines that deliver.
#[derive(Clone, Copy)]
pub struct Annex {
    pub seed: u32,
}

impl Annex {
    /// The draw of a key, ((number + seed) × 2,654,435,761) modulo 2^32.
    /// The multiplier is odd, so keys of one due day and security draw differently.
    pub fn draw(&self, key: Key) -> u32
        ensures { result ≡ draw_of self.now.seed key }
    {
        // A u32 that wraps gives the same, but the key's number would have to lose its high bits first.
        let seeded = u128::from(key.number()) + u128::from(self.seed);
        (seeded * 2_654_435_761 % 4_294_967_296) as u32
    }
}

impl Rank for Annex {
    ghost goes = { λ r _ a b. annex_goes r.seed a b };

    ghost lawful = { λ r _. annex_lawful r.seed };

    fn before(&self, _settlement: u32, a: &Claim, b: &Claim) -> bool {
        let by_price = if a.receives() {
            b.price.cmp(&a.price)
        } else {
            a.price.cmp(&b.price)
        };
        by_price
            .then_with(|| a.size().cmp(&b.size()))
            .then_with(|| self.draw(a.key).cmp(&self.draw(b.key)))
            .is_lt()
    }
}

ghost use Rattle.rank.specs.Ranks.{former_goes};
ghost use Rattle.rank.specs.Relations.{former_lawful};

use crate::Rank;
use crate::claim::Claim;

/// The former rank: the larger size × settlement price first, then the smaller key.
#[derive(Clone, Copy)]
pub struct Former;

impl Rank for Former {
    ghost goes = { λ _ p a b. former_goes p a b };

    ghost lawful = { λ _ p. former_lawful p };

    fn before(&self, settlement: u32, a: &Claim, b: &Claim) -> bool {
        let x = u128::from(a.size()) * u128::from(settlement);
        let y = u128::from(b.size()) * u128::from(settlement);
        y.cmp(&x)
            .then_with(|| a.key.number().cmp(&b.key.number()))
            .is_lt()
    }
}

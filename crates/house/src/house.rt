// A house.
ghost use Rattle.rules.specs.Fit.{Fit};
ghost use Rattle.rules.proofs.FitProp.{fit_prop};
ghost use Rattle.house.specs.Seen.{figures_in};

use book::Book;
use rank::Rank;
use rules::fault::HouseFault;
use rules::figures::Figures;
use std::marker::Model;

// A house over any book and any rank: its figures, or why it was refused at its opening. Only `open` makes one.
#[derive(Drop)]
pub struct House<B: Book, R: Rank> {
    pub(crate) book: B,
    pub(crate) rank: R,
    pub(crate) state: Result<Figures, HouseFault>,
    ghost fit: { Fit (figures_in state) } by { fit_prop (figures_in state) },
}

impl<B: Book, R: Rank> Model for House<B, R> {
    ghost use Rattle.house.specs.Seen.{Seen, house_of};

    ghost Value = { Seen B R };

    ghost view = { λ h. house_of h.book h.rank h.state h.fit };
}

// Why a house refuses.
ghost use Rattle.std.specs.Prelude.{◌≡◌};
ghost use Rattle.rules.specs.Faults.{refusal_layer, refusal_number};
ghost use Rattle.rules.specs.declared.fault.HouseFault.TheVariants.{Book};

use book::fault::BookFault;

// Where a refusal arose.
#[derive(Clone, Copy, PartialEq, Eq, Debug)]
pub enum Layer {
    Book,
    House,
    Feed,
}

#[derive(Clone, Copy, PartialEq, Eq, Debug)]
pub enum HouseFault {
    NoMember,
    NoAsset,
    NoFlag,
    BadAmount,
    WrongPhase,
    Bound,
    BelowRequirement,
    NoPlace,
    LineTooLarge,
    PositionTooLarge,
    NoClose,
    NothingOpen,
    TooEarly,
    LastDay,
    UnfitBook,
    BadCounts,
    Book(BookFault),
}

// What the book refuses, the house refuses with the book's number.
impl From<BookFault> for HouseFault {
    ghost from_gives = { λ b h. h ≡ Book b };

    fn from(fault: BookFault) -> HouseFault {
        HouseFault::Book(fault)
    }
}

impl HouseFault {
    // The layer in which the refusal arose.
    pub fn layer(self) -> Layer
        ensures { result ≡ refusal_layer self }
    {
        match self {
            HouseFault::Book(_) => Layer::Book,
            _ => Layer::House,
        }
    }

    // The number by which the refusal is listed.
    pub fn number(self) -> u8
        ensures { result ≡ refusal_number self }
    {
        match self {
            HouseFault::NoMember => 1,
            HouseFault::NoAsset => 2,
            HouseFault::NoFlag => 3,
            HouseFault::BadAmount => 4,
            HouseFault::WrongPhase => 5,
            HouseFault::Bound => 9,
            HouseFault::BelowRequirement => 10,
            HouseFault::NoPlace => 11,
            HouseFault::LineTooLarge => 12,
            HouseFault::PositionTooLarge => 13,
            HouseFault::NoClose => 14,
            HouseFault::NothingOpen => 15,
            HouseFault::TooEarly => 16,
            HouseFault::LastDay => 17,
            HouseFault::UnfitBook => 18,
            HouseFault::BadCounts => 19,
            HouseFault::Book(fault) => fault.number(),
        }
    }
}

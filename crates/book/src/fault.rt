// Why a book refuses.
ghost use Rattle.std.specs.Prelude.{◌≡◌};
ghost use Rattle.book.specs.Faults.{fault_number};

#[derive(Clone, Copy, PartialEq, Eq, Debug)]
pub enum BookFault {
    NoAccount = 20,
    NoAsset = 2,
    BadAmount = 4,
    NoSpace = 6,
    TooLittle = 7,
    TooMuch = 8,
    BadCounts = 19,
}

impl BookFault {
    // The number by which the refusal is listed.
    pub fn number(self) -> u8
        ensures { result ≡ fault_number self }
    {
        self as u8
    }
}

ghost use Rattle.std.specs.Prelude.{◌≡◌};
ghost use Rattle.feed.specs.Faults.{number_of};

/// Why the bytes of a feed are refused. Each value is the refusal's number.
#[derive(Clone, Copy, Debug, PartialEq, Eq)]
pub enum FeedFault {
    Mark = 21,
    Version = 22,
    CutShort = 23,
    Kind = 24,
    Length = 25,
    FlagLetters = 26,
    AfterEnd = 27,
}

impl FeedFault {
    /// The refusal's number.
    pub fn number(self) -> u8
        ensures { result ≡ number_of self }
    {
        self as u8
    }
}

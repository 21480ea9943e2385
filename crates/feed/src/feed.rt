ghost use Rattle.std.specs.Prelude.{◌≡◌, ◌<◌, ◌^◌, true, length};
ghost use Rattle.feed.specs.Format.{verdict, accepted, entries as entries_of};
ghost use Rattle.feed.specs.Coming.{coming};

use crate::entries::Entries;
use crate::fault::FeedFault;
use crate::reader::Reader;

/// A feed as it came: any bytes.
#[derive(Clone, Copy)]
pub struct RawFeed<'a> {
    bytes: &'a [u8],
}

/// A feed whose bytes were accepted. There is no other way to one than `RawFeed::checked`.
#[derive(Drop)]
pub struct CheckedFeed<'a> {
    bytes: &'a [u8],
    ghost good: { accepted bytes.now ≡ true },
}

impl<'a> RawFeed<'a> {
    pub fn over(bytes: &'a [u8]) -> RawFeed<'a>
        ensures { result.bytes.now ≡ bytes.now }
    {
        RawFeed { bytes }
    }

    /// Whether the bytes are a feed. It only looks.
    pub fn check(&self) -> Result<(), FeedFault>
        ensures { result ≡ verdict self.now.bytes.now }
    {
        let mut reader = Reader::at(self.bytes, 0);
        reader.head()?;
        // An entry may be refused, so a `while` with `?` is plainer here than an iterator over results.
        while let Some(_) = reader.entry()? {}
        reader.end()
    }

    /// The checked feed of accepted bytes. It cannot refuse: the caller has shown that `check` accepts.
    pub fn checked(self) -> CheckedFeed<'a>
        requires { accepted self.bytes.now ≡ true }
        ensures { result.bytes.now ≡ self.entry.bytes.now }
    {
        CheckedFeed { bytes: self.bytes }
    }
}

impl<'a> CheckedFeed<'a> {
    /// The entries from the first on. The feed is used up.
    pub fn entries(self) -> Entries<'a>
        ensures all { coming result ≡ entries_of self.entry.bytes.now }
        ensures bound { length (coming result) < 2 ^ 64 }
    {
        Entries::after_head(self.bytes)
    }
}

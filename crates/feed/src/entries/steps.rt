ghost use Rattle.std.specs.Prelude.{◌≡◌, ◌<◌, ◌^◌, true, [], ◌∷◌, length, MatchOption};
ghost use Rattle.std.specs.Iterator.{YieldsFirstBy, item_count};
ghost use Rattle.feed.specs.Coming.{coming, placed};
ghost use Rattle.feed.specs.Format.{accepted, entries as entries_of};

use crate::entries::Entries;
use crate::entry::Item;
use crate::reader::Reader;

impl<'a> Entries<'a> {
    /// All entries: the first stands after the mark and the version.
    pub(crate) fn after_head(bytes: &'a [u8]) -> Entries<'a>
        requires { accepted bytes.now ≡ true }
        ensures all { coming result ≡ entries_of bytes.now }
        ensures bound { length (coming result) < 2 ^ 64 }
    {
        let mut reader = Reader::at(bytes, 0);
        let Ok(()) = reader.head() else {
            unreachable!()
        };
        Entries { reader }
    }

    /// The next entry with its place, and the entries after it, or none where the feed ends. It cannot refuse.
    fn split_first(&self) -> Option<(Item<'a>, Entries<'a>)>
        ensures { MatchOption result (coming self.now ≡ []) (λ t. coming self.now ≡ placed t.0 ∷ coming t.1) }
    {
        let place = self.reader.place();
        let mut reader = self.reader;
        let Ok(next) = reader.entry() else {
            unreachable!()
        };
        let entry = next?;
        Some((Item { place, entry }, Entries { reader }))
    }
}

impl<'a> Iterator for Entries<'a> {
    type Item = Item<'a>;

    ghost next_gives = { YieldsFirstBy placed coming };

    ghost remaining = { item_count coming };

    fn next(&mut self) -> Option<Item<'a>> {
        let (item, rest) = self.split_first()?;
        *self = rest;
        Some(item)
    }
}

ghost use Rattle.std.specs.Prelude.{◌≡◌, true, is_ok};
ghost use Rattle.feed.specs.Format.{list_from};

mod steps;

use crate::reader::Reader;

/// The entries of a checked feed that are still to come.
#[derive(Drop)]
pub struct Entries<'a> {
    reader: Reader<'a>,
    ghost good: { is_ok (list_from reader.bytes.now reader.place) ≡ true },
}

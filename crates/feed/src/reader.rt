ghost use Rattle.std.specs.Prelude.{◌≤◌, length};

mod reads;

/// The bytes of a feed and the place reached in them.
#[derive(Clone, Copy)]
pub struct Reader<'a> {
    bytes: &'a [u8],
    place: usize,
    ghost within: { place ≤ length bytes.now },
}

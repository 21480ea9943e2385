ghost use Rattle.std.specs.Prelude.{◌≡◌};
ghost use Rattle.rank.specs.Claims.{is_delivering, is_receiving, size_of};

use crate::key::Key;

/// What a rank may read of a line.
#[derive(Clone, Copy, Debug, PartialEq, Eq)]
pub struct Claim {
    pub key: Key,
    /// The netted quantity, shares sold less shares bought: above 0 the line delivers, below 0 it receives.
    pub quantity: i64,
    /// The order price: the highest purchase price of a line that receives, the lowest sale price of one that delivers.
    pub price: u32,
}

impl Claim {
    /// Whether the line delivers.
    pub fn delivers(&self) -> bool
        ensures { result ≡ is_delivering self.now }
    {
        self.quantity > 0
    }

    /// Whether the line receives.
    pub fn receives(&self) -> bool
        ensures { result ≡ is_receiving self.now }
    {
        self.quantity < 0
    }

    /// The netted size: the quantity without its sign.
    pub fn size(&self) -> u64
        ensures { result ≡ size_of self.now }
    {
        self.quantity.unsigned_abs()
    }
}

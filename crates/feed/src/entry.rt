use rank::key::Flag;

/// A reference has 1 byte at least, and at most so many.
pub const MOST_REFERENCE: usize = 16;

/// An entry of a feed. A trade's reference is a part of the feed itself.
#[derive(Clone, Copy)]
pub enum Entry<'a> {
    Trade {
        reference: &'a [u8],
        buyer: u8,
        buyer_flag: Flag,
        seller: u8,
        seller_flag: Flag,
        security: u8,
        quantity: u32,
        price: u32,
    },
    Close {
        security: u8,
        price: u32,
    },
}

/// An entry and its place: the offset of its letter from the feed's first byte.
#[derive(Clone, Copy)]
pub struct Item<'a> {
    pub place: usize,
    pub entry: Entry<'a>,
}

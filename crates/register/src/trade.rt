// A trade as the exchange tells it, and the keys of its two sides.
ghost use Rattle.std.specs.Prelude.{◌≡◌, ◌*◌, ◌≤◌, pos};
ghost use Rattle.register.specs.Limits.{most_quantity, most_price, most_money};
ghost use Rattle.register.specs.Netting.{flag_of, key_of};

use rank::key::{Flag, Key};

// The two sides of a trade.
#[derive(Clone, Copy, Debug, PartialEq, Eq)]
pub enum Side {
    Buyer,
    Seller,
}

// A trade as it comes from outside: a flag is a number, and nothing is known of any field.
#[derive(Clone, Copy)]
pub struct Trade {
    pub buyer: u8,
    pub buyer_flag: u8,
    pub seller: u8,
    pub seller_flag: u8,
    pub security: u8,
    pub quantity: u32,
    pub price: u32,
}

// The flag that a number stands for. A number above 3 stands for none, and is refused before it is read.
#[tactic(auto, using(crate::proofs::Flags::flagged))]
pub fn flag_of(number: u8) -> Flag
    ensures { result ≡ flag_of number }
{
    Flag::try_from(number).unwrap_or(Flag::ForeignClient)
}

impl Trade {
    // The key of the line of a side, for a trade that falls due on a day.
    pub fn key(self, side: Side, due: u32) -> Key
        ensures { result ≡ key_of side due self }
    {
        let (member, flag) = match side {
            Side::Buyer => (self.buyer, self.buyer_flag),
            Side::Seller => (self.seller, self.seller_flag),
        };
        Key::new(due, self.security, member, flag_of(flag))
    }
}

// A trade that falls due on a day, with a quantity and a price within their limits.
#[derive(Clone, Copy)]
pub struct Deal {
    pub due: u32,
    pub trade: Trade,
    ghost quantity: { trade.quantity ≤ most_quantity },
    ghost price: { trade.price ≤ most_price },
}

impl Deal {
    // The key of the line of a side.
    pub fn key(self, side: Side) -> Key
        ensures { result ≡ key_of side self.due self.trade }
    {
        self.trade.key(side, self.due)
    }

    // What the shares cost.
    pub fn cost(self) -> i64
        ensures value { result ≡ pos (self.trade.quantity * self.trade.price) }
        ensures within { self.trade.quantity * self.trade.price ≤ most_money }
    {
        i64::from(self.trade.quantity) * i64::from(self.trade.price)
    }
}

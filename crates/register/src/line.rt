// A line: what the register keeps, and one side of a trade netted into it.
ghost use Rattle.std.specs.Prelude.{◌≡◌, ◌*◌, ◌≤◌, unsigned_abs};
ghost use Rattle.register.specs.Limits.{most_quantity, most_money};
ghost use Rattle.register.specs.Lines.{blank as blank_line, no_line};
ghost use Rattle.register.specs.Netting.{moved, order_price, lower_sale, netted as netted_line, traded as traded_line, too_large};
ghost use Rattle.register.specs.Sides.{crossed as crossed_line};
ghost use Rattle.register.specs.Dropping.{finished_by};
ghost use Rattle.register.specs.Fits.{Sized};

use crate::trade::{Deal, Side, Trade};
use rank::claim::Claim;
use rank::key::{Flag, Key};

// The shares of one trade, and of one line either way.
pub const MOST_QUANTITY: u32 = 100_000_000;

// The netted money of one line, either way.
pub const MOST_MONEY: u64 = 100_000_000_000_000;

// The net business of one member, in one security, under one flag, that falls due on one day.
#[derive(Clone, Copy)]
pub struct Line {
    // The key, the netted quantity (shares sold less shares bought) and the order price.
    pub claim: Claim,
    // Netted money: centavos sold for less centavos bought for.
    pub money: i64,
    // The highest purchase price and the lowest sale price, each 0 while there is none.
    pub highest: u32,
    pub lowest: u32,
    // The settlement price: 0 until the trade day ends.
    pub price: u32,
    // Netted money less the netted quantity at the settlement price, until noon of the due day takes it.
    pub difference: i64,
    // Shares still to deliver or to receive.
    pub rest: u32,
    // Shares that the line delivered since noon last ended.
    pub delivered: u32,
}

// The order price of a line with this netted quantity.
fn order_price(quantity: i64, highest: u32, lowest: u32) -> u32
    ensures { result ≡ order_price quantity highest lowest }
{
    if quantity < 0 {
        highest
    } else if quantity > 0 {
        lowest
    } else {
        0
    }
}

// The lower of two sale prices, of which the first may be none.
fn lower_sale(lowest: u32, price: u32) -> u32
    ensures { result ≡ lower_sale lowest price }
{
    if lowest == 0 {
        price
    } else {
        lowest.min(price)
    }
}

// A sum of shares or money, lowered by what is bought or raised by what is sold.
fn moved(side: Side, sum: i64, by: i64) -> i64
    requires sum { unsigned_abs sum ≤ 2 * most_money }
    requires by { unsigned_abs by ≤ most_money }
    ensures { result ≡ moved side sum by }
{
    match side {
        Side::Buyer => sum - by,
        Side::Seller => sum + by,
    }
}

// What an empty place of a register holds.
impl Default for Line {
    ghost is_default = { λ l. l ≡ no_line };

    fn default() -> Line {
        Line::blank(Key::new(0, 0, 0, Flag::LocalPrincipal))
    }
}

impl Line {
    // A line without any trade.
    pub fn blank(key: Key) -> Line
        ensures { result ≡ blank_line key }
    {
        Line {
            claim: Claim {
                key,
                quantity: 0,
                price: 0,
            },
            money: 0,
            highest: 0,
            lowest: 0,
            price: 0,
            difference: 0,
            rest: 0,
            delivered: 0,
        }
    }

    // The line with other sums and prices. Nothing of it is delivered yet.
    fn netted(self, quantity: i64, money: i64, highest: u32, lowest: u32) -> Line
        requires { unsigned_abs quantity ≤ 3 * most_quantity }
        ensures { result ≡ netted_line self quantity money highest lowest }
    {
        let mut next = self;
        next.claim.quantity = quantity;
        next.claim.price = order_price(quantity, highest, lowest);
        next.money = money;
        next.highest = highest;
        next.lowest = lowest;
        next.rest = quantity.unsigned_abs() as u32;
        next.delivered = 0;
        next
    }

    // The line after one side of a trade.
    pub fn traded(self, side: Side, deal: Deal) -> Line
        requires { Sized 2 self }
        ensures { result ≡ traded_line side self deal.trade.quantity deal.trade.price }
    {
        let price = deal.trade.price;
        let quantity = moved(side, self.claim.quantity, i64::from(deal.trade.quantity));
        let money = moved(side, self.money, deal.cost());
        let (highest, lowest) = match side {
            Side::Buyer => (self.highest.max(price), self.lowest),
            Side::Seller => (self.highest, lower_sale(self.lowest, price)),
        };
        self.netted(quantity, money, highest, lowest)
    }

    // The line after both sides of a trade.
    pub(crate) fn crossed(self, deal: Deal) -> Line
        requires { Sized 1 self }
        ensures { result ≡ crossed_line self deal.trade.quantity deal.trade.price }
    {
        self.traded(Side::Buyer, deal).traded(Side::Seller, deal)
    }

    // Whether the line has passed the limits of shares or money, either way.
    pub fn too_large(self) -> bool
        ensures { result ≡ too_large self }
    {
        self.claim.quantity.unsigned_abs() > u64::from(MOST_QUANTITY)
            || self.money.unsigned_abs() > MOST_MONEY
    }

    // Whether the line is due by a day and has no rest.
    pub fn finished(self, day: u32) -> bool
        ensures { result ≡ finished_by day self }
    {
        self.claim.key.due <= day && self.rest == 0
    }
}

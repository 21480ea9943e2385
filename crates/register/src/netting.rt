// Both sides of a trade netted into the register, and what is asked before.
ghost use Rattle.std.specs.Prelude.{◌≡◌, ◌<◌, nat_lt};
ghost use Rattle.register.specs.Limits.{register_places};
ghost use Rattle.register.specs.Netting.{place_of, line_of, traded as traded_line, filed, buyer_key, seller_key, buyer_filed, trade_filed, trade_too_large};
ghost use Rattle.register.specs.Sides.{sides_netted, new_lines};
ghost use Rattle.register.specs.Fits.{Tabled, AllSized, Sized, Nettable, Room};

use crate::asking::same_key;
use crate::line::Line;
use crate::trade::{Deal, Side, Trade};
use crate::{PLACES, Register};
use rank::key::Key;

// The lines of the buyer and of the seller; they may be one.
#[derive(Clone, Copy)]
struct Sides {
    buyer: Line,
    seller: Line,
}

// Both lines after a trade. Where they are one line, it has both sides.
fn netted_sides(one: bool, buyer: Line, seller: Line, deal: Deal) -> Sides
    requires buyer { Sized 1 buyer }
    requires seller { Sized 1 seller }
    ensures { result ≡ sides_netted one buyer seller deal.trade }
{
    if one {
        let line = buyer.crossed(deal);
        Sides {
            buyer: line,
            seller: line,
        }
    } else {
        Sides {
            buyer: buyer.traded(Side::Buyer, deal),
            seller: seller.traded(Side::Seller, deal),
        }
    }
}

impl Register {
    // Puts a line into the place of its key, or into a new place behind the others.
    pub fn file(&mut self, key: Key, line: Line)
        requires { place_of self.old key < register_places }
        ensures { self.new ≡ filed self.old key line }
    {
        match self.place(key) {
            Some(place) => self.lines[place] = line,
            None => {
                self.lines[self.count] = line;
                self.count += 1;
            }
        }
    }

    // Nets one side of a trade into the line of a key. A line that is there is looked for once.
    fn net_side(&mut self, side: Side, key: Key, deal: Deal)
        requires { Nettable self.old key }
        ensures { self.new ≡ filed self.old key (traded_line side (line_of self.old key) deal.trade.quantity deal.trade.price) }
    {
        match self.place(key) {
            Some(place) => self.lines[place] = self.lines[place].traded(side, deal),
            None => self.file(key, Line::blank(key).traded(side, deal)),
        }
    }

    // Nets the buyer's side of a trade. The seller's can follow.
    fn net_buyer(&mut self, deal: Deal)
        requires lines { AllSized self.old }
        requires room { Room self.old deal.due deal.trade }
        ensures filed { self.new ≡ buyer_filed self.old deal.due deal.trade }
        ensures next { Nettable self.new (seller_key deal.due deal.trade) }
    {
        let _ = &self.lines;
        self.net_side(Side::Buyer, deal.key(Side::Buyer), deal);
    }

    // Nets both sides of a trade.
    pub fn net(&mut self, deal: Deal)
        requires lines { AllSized self.old }
        requires room { Room self.old deal.due deal.trade }
        ensures { self.new ≡ trade_filed self.old deal.due deal.trade }
    {
        self.net_buyer(deal);
        self.net_side(Side::Seller, deal.key(Side::Seller), deal);
    }

    // How many lines a trade between two keys opens. Both may be one line.
    fn new_lines(&self, buyer: Key, seller: Key) -> usize
        ensures { result ≡ new_lines self.now buyer seller }
    {
        let bought = usize::from(!self.knows(buyer));
        let sold = usize::from(!(same_key(buyer, seller) || self.knows(seller)));
        bought + sold
    }

    // The count of lines after a trade, as far as it says whether they have a place.
    fn count_after(&self, due: u32, trade: Trade) -> usize
        ensures { nat_lt register_places result ≡ nat_lt register_places (trade_filed self.now due trade).count }
    {
        self.count + self.new_lines(trade.key(Side::Buyer, due), trade.key(Side::Seller, due))
    }

    // Whether there is no place for the lines of a trade.
    // Whoever asks learns besides that the register has all its places, which the lemmas about netting lean on.
    pub fn lacks_place(&self, due: u32, trade: Trade) -> bool
        ensures lacks { result ≡ nat_lt register_places (trade_filed self.now due trade).count }
        ensures table { Tabled self.now }
    {
        let _ = &self.count;
        self.count_after(due, trade) > PLACES
    }

    // The lines of both sides as they would be after a trade.
    fn sides_after(&self, deal: Deal) -> Sides
        requires lines { AllSized self.now }
        requires room { Room self.now deal.due deal.trade }
        ensures buyer { result.buyer ≡ line_of (trade_filed self.now deal.due deal.trade) (buyer_key deal.due deal.trade) }
        ensures seller { result.seller ≡ line_of (trade_filed self.now deal.due deal.trade) (seller_key deal.due deal.trade) }
    {
        let _ = &self.lines;
        let buyer = deal.key(Side::Buyer);
        let seller = deal.key(Side::Seller);
        netted_sides(
            same_key(buyer, seller),
            self.line_or_blank(buyer),
            self.line_or_blank(seller),
            deal,
        )
    }

    // Whether a line of the trade would pass a limit, after both sides.
    pub fn trade_too_large(&self, deal: Deal) -> bool
        requires lines { AllSized self.now }
        requires room { Room self.now deal.due deal.trade }
        ensures { result ≡ trade_too_large self.now deal.due deal.trade }
    {
        let sides = self.sides_after(deal);
        sides.buyer.too_large() || sides.seller.too_large()
    }
}

// What a house looks at before it nets a trade.
ghost use Rattle.std.specs.Prelude.{◌≡◌, ◌≤◌, ◌||◌, IfOk, nat_lt};
ghost use Rattle.register.specs.Fits.{Room};
ghost use Rattle.register.specs.Limits.{most_quantity, most_price, register_places};
ghost use Rattle.register.specs.Netting.{due_day, trade_too_large};
ghost use Rattle.rules.specs.declared.figures.Figures.{Figures};
ghost use Rattle.rules.specs.Events.{position_too_large, register_traded};
ghost use Rattle.rules.specs.Faults.{answer_of};
ghost use Rattle.rules.specs.State.{today};
ghost use Rattle.trading.specs.Traded.{trade_judged, netting_judged};

use desk::accounts::MemberId;
use desk::judging::{judge_flag, judge_member, judge_price, judge_quantity, judge_security};
use desk::standing::record_of;
use register::trade::{Deal, Trade};
use rules::fault::HouseFault;
use rules::figures::{Figures, Size};

// A trade falls due so many days after its own.
const DAYS_TO_DUE: u32 = 3;

// A party whose position and advances are larger trades no more.
const MOST_POSITION: u64 = 1_000_000_000_000_000;

// A trade that is sound as such: with its parties, its quantity and its price within their limits.
#[derive(Clone, Copy)]
pub struct Judged {
    pub trade: Trade,
    pub buyer: MemberId,
    pub seller: MemberId,
    ghost is_buyer: { buyer.number ≡ trade.buyer },
    ghost is_seller: { seller.number ≡ trade.seller },
    ghost quantity: { trade.quantity ≤ most_quantity },
    ghost price: { trade.price ≤ most_price },
}

// The day on which a trade of today falls due.
pub fn due_day(f: &Figures) -> u32
    ensures { result ≡ due_day (today f.now) }
{
    f.clock.day + DAYS_TO_DUE
}

// Whether a member's position and advances are so large that it trades no more.
pub fn position_too_large(f: &Figures, m: MemberId) -> bool
    ensures { result ≡ position_too_large f.now m.number }
{
    let record = record_of(f, m);
    record.position.unsigned_abs() + record.advances > MOST_POSITION
}

// What is wrong with a trade as such. Of a house's figures it asks the size alone, so the answer is that of all figures with
// this size, whether or not they fit their bounds.
pub fn judge_trade(size: Size, trade: Trade) -> Result<(), HouseFault>
    ensures { (f : Figures) → f.size ≡ size → answer_of result ≡ trade_judged f trade }
{
    judge_member(size, trade.buyer)?;
    judge_member(size, trade.seller)?;
    judge_security(size, trade.security)?;
    judge_flag(trade.buyer_flag)?;
    judge_flag(trade.seller_flag)?;
    judge_quantity(trade.quantity)?;
    judge_price(trade.price)
}

// A trade that is sound as such, or what is wrong with it.
pub fn sound_trade(f: &Figures, trade: Trade) -> Result<Judged, HouseFault>
    ensures answer { answer_of result ≡ trade_judged f.now trade }
    ensures trade { IfOk result (λ j. j.trade ≡ trade) }
{
    judge_trade(f.size, trade)?;
    Ok(Judged {
        trade,
        buyer: MemberId {
            number: trade.buyer,
        },
        seller: MemberId {
            number: trade.seller,
        },
    })
}

// The trade, due as one of today.
pub(crate) fn deal_today(f: &Figures, judged: Judged) -> Deal
    ensures due { result.due ≡ due_day (today f.now) }
    ensures trade { result.trade ≡ judged.trade }
{
    Deal {
        due: due_day(f),
        trade: judged.trade,
    }
}

// Whether there is no place for the lines of a trade of today.
fn lacks_place(f: &Figures, trade: Trade) -> bool
    ensures { result ≡ nat_lt register_places (register_traded f.now trade).count }
{
    f.register.lacks_place(due_day(f), trade)
}

// Whether a trade of today would make a line too large.
fn line_too_large(f: &Figures, judged: Judged) -> bool
    requires { Room f.now.register (due_day (today f.now)) judged.trade }
    ensures { result ≡ trade_too_large f.now.register (due_day (today f.now)) judged.trade }
{
    f.register.trade_too_large(deal_today(f, judged))
}

// Whether the position of one of its parties is too large.
fn party_too_large(f: &Figures, judged: Judged) -> bool
    ensures { result ≡ (position_too_large f.now judged.trade.buyer || position_too_large f.now judged.trade.seller) }
{
    position_too_large(f, judged.buyer) || position_too_large(f, judged.seller)
}

// Whether a trade that is sound as such finds no place, or makes a line or finds a position too large.
pub fn judge_netting(f: &Figures, judged: Judged) -> Result<(), HouseFault>
    ensures { answer_of result ≡ netting_judged f.now judged.trade }
{
    if lacks_place(f, judged.trade) {
        return Err(HouseFault::NoPlace);
    }
    if line_too_large(f, judged) {
        return Err(HouseFault::LineTooLarge);
    }
    if party_too_large(f, judged) {
        return Err(HouseFault::PositionTooLarge);
    }
    Ok(())
}

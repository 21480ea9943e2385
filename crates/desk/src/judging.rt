// What a house looks at before it acts.
ghost use Rattle.std.specs.Prelude.{◌≡◌, ◌≤◌, IfOk, not};
ghost use Rattle.book.specs.Faults.{from_one_to};
ghost use Rattle.rules.specs.declared.fault.HouseFault.TheVariants.{NoMember, NoAsset, NoFlag, BadAmount};
ghost use Rattle.rules.specs.Events.{no_such_member, no_such_security, no_such_asset, no_such_flag, bad_amount, bad_quantity, bad_price};
ghost use Rattle.rules.specs.Limits.{most_securities};
ghost use Rattle.desk.specs.Refusing.{RefusedIf};

use crate::accounts::MemberId;
use register::line::MOST_QUANTITY;
use rules::fault::HouseFault;
use rules::figures::{Figures, Size};

// The largest amount of one movement, and the highest price of a share.
const MOST_AMOUNT: u64 = 1_000_000_000_000_000;

const MOST_PRICE: u32 = 1_000_000;

// A security: its number is one that a house may have.
#[derive(Clone, Copy)]
pub struct SecurityId {
    pub number: u8,
    ghost known: { number ≤ most_securities },
}

// Members are numbered from 1. Of a house's figures its size alone is asked.
pub fn judge_member(size: Size, member: u8) -> Result<(), HouseFault>
    ensures { RefusedIf NoMember (not (from_one_to size.members member)) result }
{
    if member == 0 || member > size.members {
        return Err(HouseFault::NoMember);
    }
    Ok(())
}

// Securities are numbered from 1.
pub fn judge_security(size: Size, security: u8) -> Result<(), HouseFault>
    ensures { RefusedIf NoAsset (not (from_one_to size.securities security)) result }
{
    if security == 0 || security > size.securities {
        return Err(HouseFault::NoAsset);
    }
    Ok(())
}

// Looks a member up.
pub fn known_member(f: &Figures, member: u8) -> Result<MemberId, HouseFault>
    ensures answer { RefusedIf NoMember (no_such_member f.now member) result }
    ensures number { IfOk result (λ m. m.number ≡ member) }
{
    judge_member(f.size, member)?;
    Ok(MemberId { number: member })
}

// Looks a security up.
pub fn known_security(f: &Figures, security: u8) -> Result<SecurityId, HouseFault>
    ensures answer { RefusedIf NoAsset (no_such_security f.now security) result }
    ensures number { IfOk result (λ s. s.number ≡ security) }
{
    judge_security(f.size, security)?;
    Ok(SecurityId { number: security })
}

// Asset 0 is cash, the others are the securities.
pub fn known_asset(f: &Figures, asset: u8) -> Result<u8, HouseFault>
    ensures answer { RefusedIf NoAsset (no_such_asset f.now asset) result }
    ensures number { IfOk result (λ a. a ≡ asset) }
{
    if asset > f.size.securities {
        return Err(HouseFault::NoAsset);
    }
    Ok(asset)
}

// Flags are numbered from 0 to 3.
pub fn judge_flag(flag: u8) -> Result<(), HouseFault>
    ensures { RefusedIf NoFlag (no_such_flag flag) result }
{
    if flag > 3 {
        return Err(HouseFault::NoFlag);
    }
    Ok(())
}

pub fn judge_amount(amount: u64) -> Result<(), HouseFault>
    ensures { RefusedIf BadAmount (bad_amount amount) result }
{
    if amount == 0 || amount > MOST_AMOUNT {
        return Err(HouseFault::BadAmount);
    }
    Ok(())
}

pub fn judge_quantity(quantity: u32) -> Result<(), HouseFault>
    ensures { RefusedIf BadAmount (bad_quantity quantity) result }
{
    if quantity == 0 || quantity > MOST_QUANTITY {
        return Err(HouseFault::BadAmount);
    }
    Ok(())
}

pub fn judge_price(price: u32) -> Result<(), HouseFault>
    ensures { RefusedIf BadAmount (bad_price price) result }
{
    if price == 0 || price > MOST_PRICE {
        return Err(HouseFault::BadAmount);
    }
    Ok(())
}

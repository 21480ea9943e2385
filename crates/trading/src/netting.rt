// Trades netted into the register of a house.
ghost use Rattle.std.specs.Prelude.{◌≡◌, if◌then◌else◌};
ghost use Rattle.rules.specs.Faults.{accepted, answer_of, is_accepted};
ghost use Rattle.trading.specs.Traded.{trade_judged, netting_judged, novate_judged, figures_traded};

use crate::judging::{Judged, deal_today, judge_netting, sound_trade};
use register::trade::Trade;
use rules::fault::HouseFault;
use rules::figures::Figures;

// Nets a trade of today that is sound as such and that nothing forbids.
fn net(f: &mut Figures, judged: Judged)
    requires trade { trade_judged f.old judged.trade ≡ accepted }
    requires netting { netting_judged f.old judged.trade ≡ accepted }
    ensures { f.new ≡ figures_traded f.old judged.trade }
{
    let deal = deal_today(f, judged);
    f.register.net(deal);
}

// Nets a trade of today that is sound as such, unless a line or a position forbids it.
pub fn net_judged(f: &mut Figures, judged: Judged) -> Result<(), HouseFault>
    requires { trade_judged f.old judged.trade ≡ accepted }
    ensures answer { answer_of result ≡ netting_judged f.old judged.trade }
    ensures figures { f.new ≡ (if is_accepted (answer_of result) then figures_traded f.old judged.trade else f.old) }
{
    judge_netting(f, judged)?;
    net(f, judged);
    Ok(())
}

// Nets a trade of today.
pub fn novate(f: &mut Figures, trade: Trade) -> Result<(), HouseFault>
    ensures answer { answer_of result ≡ novate_judged f.old trade }
    ensures figures { f.new ≡ (if is_accepted (answer_of result) then figures_traded f.old trade else f.old) }
{
    let judged = sound_trade(f, trade)?;
    net_judged(f, judged)
}

// The closing prices.
ghost use Rattle.std.specs.Prelude.{◌≡◌, cond};
ghost use Rattle.rules.specs.Faults.{answer_of, is_accepted};
ghost use Rattle.rules.specs.State.{put_close};
ghost use Rattle.desk.specs.Judged.{price_judged};

use desk::judging::{judge_price, known_security};
use rules::fault::HouseFault;
use rules::figures::Figures;

// Sets the standing closing price of a security.
pub fn set_close(f: &mut Figures, security: u8, price: u32) -> Result<(), HouseFault>
    ensures answer { answer_of result ≡ price_judged f.old security price }
    ensures figures { f.new ≡ cond (is_accepted (answer_of result)) (put_close f.old security price) f.old }
{
    let security = known_security(f, security)?;
    judge_price(price)?;
    f.closes[usize::from(security.number)] = price;
    Ok(())
}

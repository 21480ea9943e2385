ghost use Rattle.register.specs.Fits.{AllSized};

use crate::line::{Line, MOST_QUANTITY};
use crate::trade::{Deal, Trade};
use crate::{PLACES, Register};
use rank::key::{Flag, Key};
use std::test::Fail;

// A trade in security 1, all for principals.
fn trade(buyer: u8, seller: u8, quantity: u32, price: u32) -> Trade {
    Trade {
        buyer,
        buyer_flag: 0,
        seller,
        seller_flag: 0,
        security: 1,
        quantity,
        price,
    }
}

fn key(due: u32, member: u8) -> Key {
    Key::new(due, 1, member, Flag::LocalPrincipal)
}

fn empty() -> Register
    ensures { AllSized result }
{
    Register::empty()
}

// Nets a trade that has a place and passes no limit. Gives whether it did.
fn traded(register: &mut Register, due: u32, trade: Trade) -> bool
    requires { AllSized register.old }
    ensures { AllSized register.new }
{
    if trade.quantity > MOST_QUANTITY || trade.price > 1_000_000 {
        return false;
    }
    if register.lacks_place(due, trade) {
        return false;
    }
    let deal = Deal { due, trade };
    if register.trade_too_large(deal) {
        return false;
    }
    register.net(deal);
    true
}

// The figures of a line: quantity, money, order price and rest.
fn has(line: Option<Line>, quantity: i64, money: i64, price: u32, rest: u32) -> bool {
    line.is_some_and(|line| {
        line.claim.quantity == quantity
            && line.money == money
            && line.claim.price == price
            && line.rest == rest
    })
}

#[test]
fn trades_net(rt: HostRuntime) {
    let mut register = empty();
    assert!(rt; traded(&mut register, 4, trade(1, 2, 60, 10)));
    assert!(rt; traded(&mut register, 4, trade(2, 1, 100, 12)));
    assert!(rt; register.len() == 2);
    assert!(rt; has(register.find(key(4, 1)), 40, 600, 12, 40));
    assert!(rt; has(register.find(key(4, 2)), -40, -600, 12, 40));
    assert!(rt; traded(&mut register, 4, trade(3, 3, MOST_QUANTITY, 1)));
    assert!(rt; register.len() == 3 && has(register.find(key(4, 3)), 0, 0, 0, 0));
    assert!(rt; !traded(&mut register, 4, trade(2, 1, MOST_QUANTITY, 1)));
    assert!(rt; register.find(key(5, 1)).is_none());
}

#[test]
fn a_copy_stays(rt: HostRuntime) {
    let mut register = empty();
    let before = register;
    assert!(rt; traded(&mut register, 4, trade(1, 2, 60, 10)));
    assert!(rt; register.len() == 2 && before.len() == 0);
}

#[test]
fn finished_lines_make_place(rt: HostRuntime) {
    let mut register = empty();
    assert!(rt; traded(&mut register, 5, trade(3, 3, 7, 1)));
    assert!(rt; traded(&mut register, 4, trade(3, 3, 7, 1)));
    assert!(rt; traded(&mut register, 4, trade(2, 1, 7, 1)));
    assert!(rt; register.free() == PLACES - 4);
    register.drop_finished(4);
    assert!(rt; register.free() == PLACES - 3 && register.find(key(4, 3)).is_none());
    let first = key(4, 1).number();
    assert!(rt;
        has(register.line_from(0), 7, 7, 1, 7) && has(register.line_from(first), 7, 7, 1, 7)
    );
    assert!(rt; has(register.line_from(first + 1), -7, -7, 1, 7));
    assert!(rt; has(register.line_from(key(4, 2).number() + 1), 0, 0, 0, 0));
    assert!(rt; register.line_from(key(5, 3).number() + 1).is_none());
}

#[test]
fn a_full_register(rt: HostRuntime) -> Result<(), Fail> {
    let mut register = empty();
    for due in 0..256u32 {
        assert!(rt; traded(&mut register, due, trade(1, 2, 1, 1)));
    }
    assert!(rt; register.free() == 0 && register.lacks_place(256, trade(1, 1, 1, 1)));
    assert!(rt; !register.lacks_place(255, trade(2, 1, 1, 1)));
    Ok(())
}

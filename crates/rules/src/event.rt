// What a house is told.
use register::trade::Trade;

#[derive(Clone, Copy)]
pub enum Event {
    Bring {
        member: u8,
        asset: u8,
        amount: u64,
    },
    Take {
        member: u8,
        asset: u8,
        amount: u64,
    },
    Endow {
        amount: u64,
    },
    Pledge {
        member: u8,
        amount: u64,
    },
    Refund {
        member: u8,
        amount: u64,
    },
    Contribute {
        member: u8,
        amount: u64,
    },
    Novate {
        trade: Trade,
    },
    Price {
        security: u8,
        price: u32,
    },
    Noon,
    Two,
    End,
    BuyIn {
        due: u32,
        trade: Trade,
    },
    SellOut {
        trade: Trade,
    },
    CashSettle {
        due: u32,
        security: u8,
        highest: u32,
        risk: bool,
    },
}

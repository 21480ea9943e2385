// A line of the register as text.
ghost use Rattle.std.specs.Prelude.{Some};
ghost use Rattle.sheet.specs.Lines.{key_text, line_text, net_text, settling_text};

use rank::key::Key;
use register::line::Line;
use std::fmt;

// What a line is known by, as it is shown.
#[derive(Clone, Copy)]
struct KeyText {
    key: Key,
}

impl fmt::Display for KeyText {
    ghost output = { λ t. Some (key_text t.key) };

    fn fmt<W: fmt::Write>(&self, f: &mut fmt::Formatter<W>) -> fmt::Result {
        let number = self.key.number();
        let due = self.key.due;
        let security = self.key.security;
        let member = self.key.member;
        let flag = self.key.flag;
        write!(
            f,
            "line {number} due {due} security {security} member {member} flag {flag}"
        )
    }
}

// The net of a line's trades, as it is shown.
#[derive(Clone, Copy)]
struct NetText {
    line: Line,
}

impl fmt::Display for NetText {
    ghost output = { λ t. Some (net_text t.line) };

    fn fmt<W: fmt::Write>(&self, f: &mut fmt::Formatter<W>) -> fmt::Result {
        let quantity = self.line.claim.quantity;
        let money = self.line.money;
        let order = self.line.claim.price;
        write!(f, "quantity {quantity} money {money} order {order}")
    }
}

// What is to be settled of a line, as it is shown.
#[derive(Clone, Copy)]
struct SettlingText {
    line: Line,
}

impl fmt::Display for SettlingText {
    ghost output = { λ t. Some (settling_text t.line) };

    fn fmt<W: fmt::Write>(&self, f: &mut fmt::Formatter<W>) -> fmt::Result {
        let price = self.line.price;
        let difference = self.line.difference;
        let rest = self.line.rest;
        write!(f, "price {price} difference {difference} rest {rest}")
    }
}

// A line as it is shown.
#[derive(Clone, Copy)]
pub struct LineText {
    pub line: Line,
}

impl fmt::Display for LineText {
    ghost output = { λ t. Some (line_text t.line) };

    fn fmt<W: fmt::Write>(&self, f: &mut fmt::Formatter<W>) -> fmt::Result {
        let line = self.line;
        let key = KeyText {
            key: line.claim.key,
        };
        let net = NetText { line };
        let settling = SettlingText { line };
        write!(f, "{key} {net} {settling}")
    }
}

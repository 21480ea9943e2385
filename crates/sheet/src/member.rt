// How a member stands.
ghost use Rattle.std.specs.Prelude.{◌≡◌, Some};
ghost use Rattle.sheet.specs.Members.{debt_text, duty_text, standing_text};

use rules::figures::Member;
use std::fmt;

#[derive(Clone, Copy)]
pub struct Standing {
    pub member: u8,
    pub figures: Member,
    pub call: u64,
    pub owed: u64,
}

// What a member is to pay or to be paid, as it is shown.
#[derive(Clone, Copy)]
struct DebtText {
    member: u8,
    figures: Member,
}

impl fmt::Display for DebtText {
    ghost output = { λ t. Some (debt_text t.member t.figures) };

    fn fmt<W: fmt::Write>(&self, f: &mut fmt::Formatter<W>) -> fmt::Result {
        let member = self.member;
        let position = self.figures.position;
        let advances = self.figures.advances;
        let charges = self.figures.charges;
        write!(
            f,
            "member {member} position {position} advances {advances} charges {charges}"
        )
    }
}

impl fmt::Display for Standing {
    ghost output = { λ s. Some (standing_text s) };

    fn fmt<W: fmt::Write>(&self, f: &mut fmt::Formatter<W>) -> fmt::Result {
        let debt = DebtText {
            member: self.member,
            figures: self.figures,
        };
        let duty = DutyText { standing: *self };
        write!(f, "{debt} {duty}")
    }
}

// What a fail has grown by and what is asked of a member, as it is shown.
#[derive(Clone, Copy)]
struct DutyText {
    standing: Standing,
}

impl fmt::Display for DutyText {
    ghost output = { λ t. Some (duty_text t.standing) };

    fn fmt<W: fmt::Write>(&self, f: &mut fmt::Formatter<W>) -> fmt::Result {
        let shares = self.standing.figures.shares.growth;
        let cash = self.standing.figures.cash.growth;
        let requirement = self.standing.figures.requirement;
        let call = self.standing.call;
        let owed = self.standing.owed;
        write!(
            f,
            "growth {shares} {cash} requirement {requirement} call {call} owes {owed}"
        )
    }
}

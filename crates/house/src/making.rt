// The figures of a house as it is opened.
ghost use Rattle.std.specs.Prelude.{◌≡◌, false};
ghost use Rattle.rules.specs.State.{no_member, opened_figures};
ghost use Rattle.house.specs.Opened.{bad_counts};

use register::Register;
use rules::figures::{Clock, Fail, Figures, MEMBERS, Member, Phase, Row, SECURITIES, Seat, Size};

fn no_member() -> Member
    ensures { result ≡ no_member }
{
    let fail = Fail {
        failed: false,
        growth: 0,
    };
    Member {
        position: 0,
        advances: 0,
        charges: 0,
        shares: fail,
        cash: fail,
        requirement: 0,
        owed: 0,
        late: 0,
    }
}

// The morning of day 1, without lines, all else empty or 0.
pub(crate) fn new_figures(members: u8, securities: u8) -> Figures
    requires { bad_counts members securities ≡ false }
    ensures { result ≡ opened_figures members securities }
{
    let seat = Seat {
        member: no_member(),
        escrow: Row {
            shares: [0; SECURITIES],
        },
    };
    Figures {
        size: Size {
            members,
            securities,
        },
        clock: Clock {
            day: 1,
            phase: Phase::Morning,
        },
        register: Register::empty(),
        seats: [seat; MEMBERS],
        closes: [0; SECURITIES],
        fails: 0,
    }
}

use crate::Rank;
use crate::annex::Annex;
use crate::claim::Claim;
use crate::first::first_of;
use crate::former::Former;
use crate::key::{Flag, Key, NoFlag};
use std::fmt::InlineText;

/// A line of due day 4 and security 1.
fn line(member: u8, flag: Flag, quantity: i64, price: u32) -> Claim {
    Claim {
        key: Key::new(4, 1, member, flag),
        quantity,
        price,
    }
}

#[test]
fn keys_and_flags(rt: HostRuntime) {
    let largest = Key::new(u32::MAX, 255, 255, Flag::ForeignClient);
    assert!(rt;
        Key::new(4, 1, 2, Flag::LocalClient).number() == 65_801
            && largest.number() == 70_368_744_227_583
    );
    assert!(rt;
        Flag::try_from(2u8) == Ok(Flag::ForeignPrincipal) && u8::from(Flag::ForeignPrincipal) == 2
    );
    assert!(rt; Flag::try_from(4u8) == Err(NoFlag));
}

#[test]
fn letters(rt: HostRuntime) {
    assert!(rt; Flag::LocalPrincipal.letters() == "LP");
    assert!(rt; InlineText::<2>::of(Flag::LocalClient).as_str() == "LC");
    assert!(rt; Flag::try_from(b"FC".as_slice()) == Ok(Flag::ForeignClient));
    assert!(rt; Flag::try_from(b"FL".as_slice()) == Err(NoFlag));
}

#[test]
fn sides(rt: HostRuntime) {
    let none = line(1, Flag::LocalPrincipal, 0, 0);
    assert!(rt; line(1, Flag::LocalPrincipal, 1, 0).delivers() && !none.delivers());
    assert!(rt; line(1, Flag::LocalPrincipal, -1, 0).receives() && !none.receives());
    assert!(rt; line(1, Flag::LocalPrincipal, i64::MIN, 0).size() == 9_223_372_036_854_775_808);
}

#[test]
fn draws(rt: HostRuntime) {
    let key = Key::new(4, 1, 2, Flag::LocalClient);
    let (low, high) = (Annex { seed: 0 }, Annex { seed: u32::MAX });
    assert!(rt; low.draw(key) == 1_092_483_129 && high.draw(key) == 2_733_014_664);
}

/// Whether each line goes before the next.
fn in_order<R: Rank>(rank: &R, settlement: u32, lines: &[Claim]) -> bool {
    lines
        .windows(2)
        .all(|pair| rank.before(settlement, &pair[0], &pair[1]))
}

#[test]
fn annex(rt: HostRuntime) {
    let receivers = [
        line(3, Flag::LocalPrincipal, -60, 1_100),
        line(1, Flag::LocalPrincipal, -40, 1_000),
        line(2, Flag::LocalClient, -60, 1_000),
        line(2, Flag::LocalPrincipal, -60, 1_000),
    ];
    let deliverers = [
        line(2, Flag::LocalPrincipal, 70, 1_000),
        line(1, Flag::LocalPrincipal, 60, 1_100),
    ];
    let rank = Annex { seed: 0 };
    assert!(rt; in_order(&rank, 1_050, &receivers), "price, size, draw");
    assert!(rt; in_order(&rank, 1_050, &deliverers), "price");
    assert!(rt; matches!(first_of(&rank, 1_050, &deliverers), Some(0)));
}

#[test]
fn former(rt: HostRuntime) {
    let small = line(1, Flag::LocalPrincipal, -40, 1_100);
    let large = line(2, Flag::LocalPrincipal, -60, 1_000);
    let client = line(2, Flag::LocalClient, -60, 1_000);
    let huge = line(9, Flag::LocalPrincipal, i64::MIN, 0);
    assert!(rt;
        in_order(&Former, u32::MAX, &[huge, large, client, small]),
        "value, key"
    );
    assert!(rt;
        in_order(&Former, 0, &[small, large, client, huge]),
        "at price 0, key"
    );
    assert!(rt; matches!(first_of(&Former, 1_050, &[small, large]), Some(1)));
}

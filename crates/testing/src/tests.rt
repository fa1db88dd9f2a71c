// What splits, on sets worked out by hand.
use crate::ground::{Ground, Shown, Side, Split};
use crate::splitting::split;
use lts::sets::ActionSet;

// One system offers actions 1 and 2 together, the other one of them and does not say which.
#[test]
fn offers_apart(rt: HostRuntime) {
    let both = [ActionSet::from_bits(6)];
    let either = [ActionSet::from_bits(2), ActionSet::from_bits(4)];
    let ground = Ground::Offer(ActionSet::from_bits(0xFFFF_FFFD));
    let passer = Side::Left;
    assert_eq!(rt;
        split(Shown::Offers(&both), Shown::Offers(&either)),
        Some(Split { ground, passer })
    );
}

// The left list is asked first, for its lowest set that contains none on the right: not 1, which stands on both sides, but 6.
#[test]
fn left_asked_first(rt: HostRuntime) {
    let left = [
        ActionSet::from_bits(1),
        ActionSet::from_bits(6),
        ActionSet::from_bits(8),
    ];
    let right = [ActionSet::from_bits(1), ActionSet::from_bits(16)];
    let ground = Ground::Offer(ActionSet::from_bits(0xFFFF_FFF9));
    let passer = Side::Right;
    assert_eq!(rt;
        split(Shown::Offers(&left), Shown::Offers(&right)),
        Some(Split { ground, passer })
    );
}

// Offers are not compared where one system is not convergent.
#[test]
fn settles_before_offers(rt: HostRuntime) {
    let one = [ActionSet::from_bits(1)];
    let ground = Ground::Settle;
    let passer = Side::Right;
    assert_eq!(rt;
        split(Shown::Divergent, Shown::Offers(&one)),
        Some(Split { ground, passer })
    );
}

// The flags and the sets tell the same as what they show: sets count only where both systems are convergent, and convergence only where both can do the trace.
#[test]
fn shown_by_flags(rt: HostRuntime) {
    let one = [ActionSet::from_bits(1)];
    let reach = Split {
        ground: Ground::Reach,
        passer: Side::Left,
    };
    let settle = Split {
        ground: Ground::Settle,
        passer: Side::Right,
    };
    let divergent = Shown::of(true, false, &one);
    assert_eq!(rt; split(divergent, Shown::of(false, true, &one)), Some(reach));
    assert_eq!(rt; split(divergent, Shown::of(true, true, &one)), Some(settle));
    assert_eq!(rt; split(divergent, Shown::of(true, false, &[])), None);
}

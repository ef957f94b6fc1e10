//! What ports and shared ports come to.
use crate::let_go::is_told_as_let_go;
use crate::port_fleets::{Fleet, all_meet, both_finish};
use crate::ports::Act;
use crate::posts_beside_gossip::posted;
use crate::queue_steps::{Ended, two_at_a_queue};
use crate::shared_pairs::meet;
use mpx_num::Ops;
use std::test::Fail;

const SUM_OF_EIGHT: &[(u32, Act)] = &[
    (1, Act::Posts(0, 0)),
    (100, Act::Gossips),
    (1, Act::Harvests(0, 28)),
];

// Three sums of two, of which first one is let go, and then all but the newest.
const LETS_GO: &[(u32, Act)] = &[
    (1, Act::Posts(0, 0)),
    (1, Act::Posts(1, 10)),
    (1, Act::Posts(2, 20)),
    (20, Act::Gossips),
    (1, Act::Harvests(0, 1)),
    (1, Act::Harvests(1, 21)),
    (1, Act::Harvests(2, 41)),
    (1, Act::Forgets(1, 1, 21)),
    (1, Act::Forgets(9, 2, 41)),
];

// Fleets, and how many instances their last two ports have both finished in the end. Whatever the room, eight ports get the sum of 0 to 7. Two
// ports that don't harvest have finished none, and two that let results go have finished as many. In the last row each of two works in a thread.
const FLEETS: [(Fleet, u64); 7] = [
    ((8, 1, SUM_OF_EIGHT, 0), 1),
    ((8, 256, SUM_OF_EIGHT, 0), 1),
    (
        (
            2,
            1,
            &[
                (1, Act::HasRoom(1)),
                (1, Act::Posts(0, 0)),
                (20, Act::Gossips),
                (1, Act::Harvests(0, 1)),
            ],
            0,
        ),
        1,
    ),
    ((2, 1, &[(1, Act::Posts(0, 0)), (20, Act::Gossips)], 0), 0),
    ((2, 256, &[(1, Act::HasRoom(256))], 0), 0),
    ((2, 4, LETS_GO, 0), 3),
    ((2, 4, &[(1, Act::Posts(0, 0))], 5_000_000), 1),
];

#[test]
fn two_ports_meet_with_what_both_finished(rt: HostRuntime) -> Result<(), Fail> {
    let ops = Ops::none(rt.alloc());
    for (fleet, both) in FLEETS {
        assert_eq!(rt; both_finish(&rt, rt.alloc(), fleet, &ops)?, Some(both));
    }
    Ok(())
}

#[test]
fn two_shared_ports_have_one_sum(rt: HostRuntime) -> Result<(), Fail> {
    let ops = Ops::none(rt.alloc());
    assert!(rt; meet(&rt, rt.alloc(), &ops)?);
    Ok(())
}

#[test]
fn eight_ports_meet_with_one_sum(rt: HostRuntime) -> Result<(), Fail> {
    let ops = Ops::none(rt.alloc());
    assert!(rt; all_meet(&rt, rt.alloc(), SUM_OF_EIGHT, 28, &ops)?);
    Ok(())
}

#[test]
fn result_let_go_between_two_locks_is_told_so(rt: HostRuntime) -> Result<(), Fail> {
    let ops = Ops::none(rt.alloc());
    assert!(rt; is_told_as_let_go(&rt, rt.alloc(), &ops)?);
    Ok(())
}

#[test]
fn two_ports_swap_frames_in_a_queue_of_one(rt: HostRuntime) -> Result<(), Fail> {
    let ops = Ops::none(rt.alloc());
    let (three, none) = (Some(3), None);
    let with = Ended {
        both: 1,
        first: three,
        second: three,
    };
    let without = Ended {
        both: 0,
        first: none,
        second: none,
    };
    assert_eq!(rt; two_at_a_queue(&rt, rt.alloc(), true, &ops)?, Some(with));
    assert_eq!(rt;
        two_at_a_queue(&rt, rt.alloc(), false, &ops)?,
        Some(without)
    );
    Ok(())
}

#[test]
fn one_thread_posts_beside_gossip(rt: HostRuntime) -> Result<(), Fail> {
    let ops = Ops::none(rt.alloc());
    assert_eq!(rt; posted(&rt, rt.alloc(), &ops)?, 1_000);
    Ok(())
}

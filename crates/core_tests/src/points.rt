use std::test::Fail;
use vh_lane::Lane;
use vh_points::Points;

const ONE: u32 = 1 << 24;

#[test]
fn queues_are_filled_read_and_cleared(rt: HostRuntime) -> Result<(), Fail> {
    let mut points = Points::new(rt.alloc(), 2, 3)?;
    let q = points.add_queue(7);
    points.add_point(q, 5, 8_388_608);
    assert!(rt; !points.may_follow(q, 5, 0) && !points.may_follow(q, 6, 8_388_608));
    assert!(rt; points.may_follow(q, 6, 0));
    points.add_point(q, 6, 0);
    assert!(rt; points.lacks(1) && !points.lacks(7));
    let q = points.add_queue(1);
    points.add_point(q, 8191, ONE);
    assert_eq!(rt; (points.free_queues(), points.free_points()), (0, 0));
    assert_eq!(rt;
        (points.queues(), points.queue(0), points.queue(1)),
        (2, (7, 2), (1, 1))
    );
    assert_eq!(rt;
        (points.point(0, 1), points.point(1, 0)),
        ((6, 0), (8191, ONE))
    );
    points.clear();
    assert_eq!(rt; points.queues(), 0);
    Ok(())
}

#[test]
fn a_lane_follows_its_lines(rt: HostRuntime) -> Result<(), Fail> {
    let alloc = rt.alloc();
    let rising = Lane::new(alloc, 0, 20, &[(0, 0), (10, ONE)])?;
    for (s, value) in [
        (0, 0),
        (1, 1_048_576),
        (2, 3_145_728),
        (3, 4_194_304),
        (10, ONE),
        (11, ONE),
    ] {
        assert_eq!(rt; rising.value_at(s), value);
    }
    let falling = Lane::new(alloc, 0, 0, &[(2, 10), (5, 0), (6, 7)])?;
    for (s, value) in [
        (0, 10),
        (2, 10),
        (3, 6),
        (4, 3),
        (5, 0),
        (6, 7),
        (4_294_967_295, 7),
    ] {
        assert_eq!(rt; falling.value_at(s), value);
    }
    let stepped = Lane::new(alloc, 1, 0, &[(0, 0), (4, ONE)])?;
    for (s, value) in [(1, 0), (2, ONE), (3, ONE)] {
        assert_eq!(rt; stepped.value_at(s), value);
    }
    Ok(())
}

#[test]
fn changes_are_sent_where_the_value_differs(rt: HostRuntime) -> Result<(), Fail> {
    let alloc = rt.alloc();
    let lane = Lane::new(alloc, 0, 23, &[(0, 0), (10, ONE)])?;
    let mut points = Points::new(alloc, 1, 12)?;
    let q = points.add_queue(7);
    lane.changes(0, 12, 0, q, &mut points);
    assert_eq!(rt; points.queue(0), (7, 2));
    assert_eq!(rt; points.point(0, 0), (5, 8_388_608));
    assert_eq!(rt; points.point(0, 1), (10, ONE));
    points.clear();
    let q = points.add_queue(7);
    lane.changes(6, 8, ONE, q, &mut points);
    assert_eq!(rt; points.queue(0), (7, 1));
    assert_eq!(rt; points.point(0, 0), (0, 8_388_608));
    Ok(())
}

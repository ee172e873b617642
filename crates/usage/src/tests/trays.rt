// Stamps, the order of writes, trays and counting.
use crate::posts::{move_back, post_both};
use stamps::{Concerns, HIGHEST_COUNT, Stamp, Tray, TrayFault, WriteOrder, count_concerning};
use std::test::Fail;

#[derive(Clone, Copy, PartialEq, Eq, Debug)]
struct Request {
    client: usize,
    key: usize,
}

#[derive(Clone, Copy, PartialEq, Eq, Debug)]
struct Line(usize, bool);

impl Concerns for Request {
    ghost client = { λ x. x.client };

    fn client(&self) -> usize {
        self.client
    }
}

impl Concerns for Line {
    ghost client = { λ x. x.0 };

    fn client(&self) -> usize {
        self.0
    }
}

#[test]
fn stamps_merge_and_rank(rt: HostRuntime) {
    let mut s = Stamp::new([3, 0, 5, 0, 0, 0, 0, 1]);
    let t = Stamp::new([1, 4, 5, 0, 0, 0, 0, 0]);
    assert!(rt; !s.at_most(&t) && !t.at_most(&s));
    s.merge(&t);
    assert!(rt; t.at_most(&s));
    assert_eq!(rt; s.count(0), 3);
    assert_eq!(rt; s.count(1), 4);
    assert_eq!(rt; s.count(7), 1);
    assert_eq!(rt; s.count(8), 0);
    assert_eq!(rt; s.rank(), 13);
    assert_eq!(rt; Stamp::new([u16::MAX; 8]).rank(), 524_280);
}

#[test]
fn raising_stops_at_the_highest_count(rt: HostRuntime) {
    let mut s = Stamp::new([HIGHEST_COUNT - 1, 0, 0, 0, 0, 0, 0, 0]);
    assert_eq!(rt; s.raise(0), Some(4000));
    assert_eq!(rt; s.raise(0), None);
    assert_eq!(rt; s.raise(8), None);
    assert_eq!(rt; s.raise(7), Some(1));
    assert_eq!(rt; s.rank(), 4001);
}

#[test]
fn the_higher_client_breaks_a_tie(rt: HostRuntime) {
    let low = WriteOrder { rank: 7, client: 2 };
    let high = WriteOrder { rank: 7, client: 3 };
    let higher = WriteOrder { rank: 8, client: 0 };
    assert!(rt; high.is_later_than(&low) && !low.is_later_than(&high));
    assert!(rt; higher.is_later_than(&high) && !high.is_later_than(&higher));
    assert!(rt; !low.is_later_than(&low));
    // The derived order is the same.
    assert!(rt; high > low && higher > high && !(low > low));
}

#[test]
fn a_tray_closes_up(rt: HostRuntime) {
    let mut places = [Request { client: 0, key: 0 }; 3];
    let mut pool = Tray::new(&mut places);
    assert_eq!(rt;
        post_both(
            &mut pool,
            Request { client: 1, key: 10 },
            Request { client: 2, key: 20 },
        ),
        Ok(())
    );
    assert_eq!(rt;
        post_both(
            &mut pool,
            Request { client: 3, key: 30 },
            Request { client: 4, key: 40 },
        ),
        Err(TrayFault::Full)
    );
    assert_eq!(rt; pool.push(Request { client: 1, key: 30 }), Ok(()));
    assert_eq!(rt; pool.concerning(1), 2);
    assert_eq!(rt; move_back(&mut pool, 0), Ok(()));
    assert_eq!(rt; move_back(&mut pool, 3), Err(TrayFault::NoSuchPlace(3)));
    assert!(rt;
        pool.as_slice()
            .iter()
            .map(|request| request.key)
            .eq([20, 30, 10])
    );
    pool.clear();
    assert_eq!(rt; pool.free(), 3);
}

#[test]
fn a_tray_takes_up_what_is_there(rt: HostRuntime) -> Result<(), Fail> {
    let mut places = [Line(5, true), Line(6, false), Line(5, false)];
    assert_eq!(rt; count_concerning(&places, 5), 2);
    assert!(rt; Tray::with_elements(&mut places, 4).is_none());
    let mut log = Tray::with_elements(&mut places, 2).ok_or("two of three places")?;
    assert_eq!(rt; log.concerning(5), 1);
    assert_eq!(rt; log.replace(1, Line(5, true)), Ok(()));
    assert_eq!(rt;
        log.replace(2, Line(5, true)),
        Err(TrayFault::NoSuchPlace(2))
    );
    assert_eq!(rt; log.concerning(5), 2);
    assert_eq!(rt; log.len(), 2);
    Ok(())
}

//! What seats draw, and what a schedule draws.

use claim_core::{Claims, Draw, draws_are_each_once, replay, seats_draw_the_schedule};
use std::test::Fail;

// Seats that part and meet again draw on from one counter: each place once, and then none.
#[test]
fn seats_share_one_counter(rt: HostRuntime) -> Result<(), Fail> {
    let alloc = rt.alloc();
    let (claims, mut seat) = Claims::new(alloc, 3)?;
    let mut other = claims.split(alloc, &mut seat)?;
    assert_eq!(&rt; claims.draw(&mut other), Some(0));
    assert_eq!(&rt; claims.draw(&mut seat), Some(1));
    assert!(&rt; claims.join(alloc, &mut seat, other).is_ok());
    assert_eq!(&rt; claims.draw(&mut seat), Some(2));
    assert_eq!(&rt; claims.draw(&mut seat), None);
    assert_eq!(&rt; claims.draw(&mut seat), None);
    Ok(())
}

#[test]
fn a_schedule_draws_in_its_order(rt: HostRuntime) -> Result<(), Fail> {
    draws_are_each_once();
    seats_draw_the_schedule();
    let draws = replay(rt.alloc(), &[7, 3, 7])?;
    let expected = [(7, 0), (3, 1), (7, 2)].map(|(worker, number)| Draw { worker, number });
    assert_eq!(&rt; draws.as_slice(), expected.as_slice());
    Ok(())
}

ghost use Rattle.std.specs.Prelude.{◌≡◌, ◌<◌, ◌≤◌};

use incumbent::{BestSeat, Incumbent};
use std::alloc::{AllocError, Global};
use std::test::Fail;
use std::thread;
use std::thread::Threads;

// A thousand offers, the least of which is `from`, and as many looks.
fn offer_all(seat: &mut BestSeat, from: u64)
    requires { from ≤ 100000 }
    ensures { seat.new.incumbent ≡ seat.old.incumbent }
{
    for k in 0..1000 {
        seat.offer(from + 999 - k);
        seat.see();
    }
}

// What is left where each of two seats makes its offers in a thread of its own, the least of them
// 70 and 40.
fn left<R: Threads + Sync>(rt: &R, alloc: Global, start: u64) -> Result<u64, AllocError> {
    let (incumbent, mut seats) = Incumbent::begin(alloc, start, 2)?;
    thread::for_each_mut(
        rt,
        seats.as_mut_slice(),
        2,
        &|i, seat: &mut BestSeat|
            ensures { seat.exit.now.incumbent ≡ seat.entry.now.incumbent }
        { offer_all(seat, if i == 0 { 70 } else { 40 }) },
    );
    Ok(incumbent.close(seats))
}

#[test]
fn two_threads_leave_the_least_offer(rt: HostRuntime) -> Result<(), Fail> {
    for _ in 0..50 {
        assert!(rt; left(&rt, rt.alloc(), 50000)? == 40);
    }
    assert!(rt; left(&rt, rt.alloc(), 7)? == 7);
    Ok(())
}

// What the first seat gets for its offer, what the second then sees, and what is left.
fn seen_by_another(alloc: Global) -> Result<Option<(u64, u64, u64)>, AllocError> {
    let (incumbent, mut seats) = Incumbent::begin(alloc, 9, 2)?;
    let Some(mut second) = seats.pop() else {
        return Ok(None);
    };
    let Some(mut first) = seats.pop() else {
        return Ok(None);
    };
    let offered = first.offer(7);
    let seen = second.see();
    let all = vec![in alloc; first, second]?;
    Ok(Some((offered, seen, incumbent.close(all))))
}

#[test]
fn a_seat_sees_what_another_offered(rt: HostRuntime) -> Result<(), Fail> {
    assert!(rt; seen_by_another(rt.alloc())? == Some((7, 7, 7)));
    Ok(())
}

// What is left where none of so many seats offers anything.
fn left_untouched(alloc: Global, start: u64, seats: u32) -> Result<u64, AllocError>
    requires { (0 < seats) × (seats ≤ 64) }
{
    let (incumbent, seats) = Incumbent::begin(alloc, start, seats)?;
    Ok(incumbent.close(seats))
}

#[test]
fn without_an_offer_the_start_is_left(rt: HostRuntime) -> Result<(), Fail> {
    assert!(rt; left_untouched(rt.alloc(), 5, 1)? == 5);
    assert!(rt; left_untouched(rt.alloc(), u64::MAX, 64)? == u64::MAX);
    Ok(())
}

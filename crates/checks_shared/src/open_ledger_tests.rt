ghost use Rattle.std.specs.Prelude.{◌≡◌, ◌<◌, ◌≤◌, ◌^◌};

use open_ledger::{Ledger, LedgerSeat, Totals, Why};
use std::alloc::{AllocError, Global};
use std::test::Fail;
use std::thread;
use std::thread::Threads;

// A seat's work: a thousand ups and downs, and as many claims as are granted, at most a thousand.
fn work(seat: &mut LedgerSeat)
    requires { seat.old.tally.refused ≡ 0 }
    ensures { seat.new.ledger ≡ seat.old.ledger }
{
    claim_up_to(seat, 1000);
    for _ in 0..1000 {
        seat.up();
        seat.down();
    }
    seat.up();
}

// Claims until one is refused, so often at most.
fn claim_up_to(seat: &mut LedgerSeat, most: u32)
    requires { seat.old.tally.refused ≡ 0 }
    ensures { seat.new.ledger ≡ seat.old.ledger }
{
    for _ in 0..most {
        if !seat.claim() {
            return;
        }
    }
}

// What so many seats come to, each of which works in a thread of its own.
fn totals<R: Threads + Sync>(
    rt: &R,
    alloc: Global,
    budget: u64,
    seats: u32,
) -> Result<Totals, AllocError>
    requires small { budget < 2 ^ 63 }
    requires few { (0 < seats) × (seats ≤ 64) }
{
    let (ledger, mut all) = Ledger::begin(alloc, budget, seats)?;
    thread::for_each_mut(
        rt,
        all.as_mut_slice(),
        seats as usize,
        &|_, seat: &mut LedgerSeat|
            requires { seat.now.tally.refused ≡ 0 }
            ensures { seat.exit.now.ledger ≡ seat.entry.now.ledger }
        { work(seat) },
    );
    Ok(ledger.close(all))
}

#[test]
fn what_threads_count_adds_up(rt: HostRuntime) -> Result<(), Fail> {
    for _ in 0..50 {
        assert!(rt;
            totals(&rt, rt.alloc(), 5000, 2)?
                == Totals {
                    opened: 3,
                    claimed: 2000
                }
        );
        assert!(rt;
            totals(&rt, rt.alloc(), 1500, 2)?
                == Totals {
                    opened: 3,
                    claimed: 1500
                }
        );
    }
    assert!(rt;
        totals(&rt, rt.alloc(), 0, 1)?
            == Totals {
                opened: 2,
                claimed: 0
            }
    );
    assert!(rt;
        totals(&rt, rt.alloc(), 7, 64)?
            == Totals {
                opened: 65,
                claimed: 7
            }
    );
    Ok(())
}

// What one seat is answered, in turn, and what is left: three claims of a budget of two, a look for
// a halt after its own, and a look at the open nodes after an up and two downs.
fn answers(alloc: Global) -> Result<Option<([bool; 4], u64, Totals)>, AllocError> {
    let (ledger, mut seats) = Ledger::begin(alloc, 2, 1)?;
    let Some(mut seat) = seats.pop() else {
        return Ok(None);
    };
    let first = seat.claim();
    if !first {
        return Ok(None);
    }
    let second = seat.claim();
    if !second {
        return Ok(None);
    }
    let third = seat.claim();
    if third {
        return Ok(None);
    }
    seat.halt(Why::Refused);
    let halted = seat.see_halt();
    seat.up();
    seat.down();
    seat.down();
    let open = seat.see_open();
    let totals = ledger.close(vec![in alloc; seat]?);
    Ok(Some(([first, second, third, halted], open, totals)))
}

#[test]
fn a_budget_is_claimed_until_it_is_spent(rt: HostRuntime) -> Result<(), Fail> {
    let left = Totals {
        opened: 0,
        claimed: 2,
    };
    assert!(rt; answers(rt.alloc())? == Some(([true, true, false, true], 0, left)));
    Ok(())
}

// Whether a seat sees a halt before and after another halts, and why that did.
fn halt_seen(alloc: Global) -> Result<Option<(bool, bool, Option<Why>)>, AllocError> {
    let (_ledger, mut seats) = Ledger::begin(alloc, 2, 2)?;
    let Some(mut watching) = seats.pop() else {
        return Ok(None);
    };
    let Some(mut halting) = seats.pop() else {
        return Ok(None);
    };
    let before = watching.see_halt();
    halting.halt(Why::Memory);
    Ok(Some((before, watching.see_halt(), halting.why())))
}

#[test]
fn a_seat_sees_that_another_halted(rt: HostRuntime) -> Result<(), Fail> {
    assert!(rt; halt_seen(rt.alloc())? == Some((false, true, Some(Why::Memory))));
    Ok(())
}

ghost use Rattle.std.specs.Prelude.{◌≡◌, ℕ, ◌<◌, length, All, IfOk};
ghost use Rattle.st_model.specs.Led.{heads_at};

use st_model::{VertexLists, walk};
use std::alloc::{AllocError, Global};
use std::test::Fail;

// Whether of three lists the first has 5, the second nothing, and the last these.
fn has_last(lists: &VertexLists<u32>, last: &[u32]) -> bool
    requires { length lists.now ≡ 3 }
{
    lists.count() == 3
        && lists.lists().len() == 3
        && lists.at(0) == [5].as_slice()
        && lists.at(1).is_empty()
        && lists.at(2) == last
}

// Whether lists have what is added to them and then set.
fn keep(alloc: Global) -> Result<bool, AllocError> {
    let mut lists = VertexLists::new(alloc, 3)?;
    lists.add(2, 7)?;
    lists.add(0, 5)?;
    lists.add(2, 8)?;
    let is_kept = has_last(&lists, &[7, 8]);
    lists.set(2, 0, 9);
    Ok(is_kept && has_last(&lists, &[9, 8]))
}

#[test]
fn lists_keep_what_is_added(rt: HostRuntime) -> Result<(), Fail> {
    assert!(rt; keep(rt.alloc())?);
    Ok(())
}

// VertexLists for the vertices below 5: of each pair of such vertices the second at the first.
fn heads_of(alloc: Global, pairs: &[(u32, u32)]) -> Result<VertexLists<u32>, AllocError>
    ensures count { IfOk result (λ heads. length heads ≡ 5) }
    ensures in_range { IfOk result (λ heads. (u : ℕ) → All (λ v. v < 5) (heads_at heads u)) }
{
    let mut heads = VertexLists::new(alloc, 5)?;
    for &(tail, head) in pairs {
        if tail < 5 && head < 5 {
            heads.add(tail, head)?;
        }
    }
    Ok(heads)
}

// 1 leads to 3, and 3 back to 1 and on to 2; nothing leads to 4.
#[test]
fn a_walk_reaches_all_that_is_led_to(rt: HostRuntime) -> Result<(), Fail> {
    let heads = heads_of(rt.alloc(), &[(1, 3), (3, 1), (3, 2), (4, 1)])?;
    let reached = walk(rt.alloc(), &heads, 1)?;
    assert!(rt; reached.members() == [1, 3, 2].as_slice());
    Ok(())
}

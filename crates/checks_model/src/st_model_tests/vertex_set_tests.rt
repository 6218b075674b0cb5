use st_model::{Listed, VertexSet};
use std::alloc::{AllocError, Global};
use std::test::Fail;

// Whether a set has these members in this order, and contains them, and none of some other vertices.
fn has(set: &VertexSet, members: &[u32], others: &[u32]) -> bool {
    set.members() == members
        && members.iter().all(|vertex| set.contains(*vertex))
        && !others.iter().any(|vertex| set.contains(*vertex))
}

// The set of the vertices below 5 that 3, 1 and 3 again are put into.
fn of_two(alloc: Global) -> Result<VertexSet, AllocError> {
    let mut set = VertexSet::new(alloc, 5)?;
    set.insert(3)?;
    set.insert(1)?;
    set.insert(3)?;
    Ok(set)
}

// That set once it is filled anew.
fn filled(alloc: Global) -> Result<VertexSet, AllocError> {
    let mut set = of_two(alloc)?;
    set.fill(&[4, 0, 4, 7, 5])?;
    Ok(set)
}

// That set once it is cleared.
fn cleared(alloc: Global) -> Result<VertexSet, AllocError> {
    let mut set = filled(alloc)?;
    set.clear();
    Ok(set)
}

#[test]
fn sets_take_each_vertex_once(rt: HostRuntime) -> Result<(), Fail> {
    assert!(rt; has(&VertexSet::new(rt.alloc(), 5)?, &[], &[]));
    assert!(rt; has(&of_two(rt.alloc())?, &[3, 1], &[0, 4, 5]));
    assert!(rt; has(&filled(rt.alloc())?, &[4, 0], &[3, 5, 7]));
    assert!(rt; has(&cleared(rt.alloc())?, &[], &[4]));
    Ok(())
}

#[test]
fn sets_of_a_list_keep_what_is_below_the_count(rt: HostRuntime) -> Result<(), Fail> {
    let set = VertexSet::of(rt.alloc(), 5, &[2, 8, 2, 4])?;
    assert!(rt; has(&set, &[2, 4], &[8]));
    Ok(())
}

#[test]
fn lists_give_their_items_back(rt: HostRuntime) -> Result<(), Fail> {
    let listed = Listed::of(vec![in rt.alloc(); 7, 5]?);
    assert!(rt; listed.as_slice() == [7, 5].as_slice());
    assert!(rt; listed.into_vec().as_slice() == [7, 5].as_slice());
    Ok(())
}

ghost use Rattle.std.specs.Prelude.{◌≡◌, ◌+◌, ◌^◌, ◌<◌, ◌≤◌, IfOk, OnOk, All, AllPairs, IsFalse, map};
ghost use Rattle.st_model.specs.Lists.{up_to};
ghost use Rattle.st_model.specs.Network.{IsVertex, joins};
ghost use Rattle.st_model.specs.Stated.{ends, merged, stated_need};
ghost use Rattle.st_model.specs.Steps.{put_link};

use crate::{Link, Need};
use indexmap::IndexSet;
use std::alloc::{AllocError, Global};

// One link for each pair, and beside them the pairs.
pub fn merge_links(
    alloc: Global,
    stated: &[Link],
) -> Result<(Vec<Link>, IndexSet<(u32, u32)>), AllocError>
    ensures links { IfOk result (λ r. r.0.items ≡ merged stated.now) }
    ensures pairs { IfOk result (λ r. r.1.keys ≡ map ends (merged stated.now)) }
{
    let mut links = Vec::new(alloc);
    let mut pairs = IndexSet::new(alloc);
    for link in stated {
        if link.a != link.b {
            put(&mut links, &mut pairs, *link)?;
        }
    }
    Ok((links, pairs))
}

// The pairs of links of which each joins other vertices.
pub fn pairs_of(alloc: Global, links: &[Link]) -> Result<IndexSet<(u32, u32)>, AllocError>
    requires { AllPairs (λ l m. IsFalse (joins m l.a l.b)) links.now }
    ensures { IfOk result (λ pairs. pairs.keys ≡ map ends links.now) }
{
    let mut pairs = IndexSet::new(alloc);
    for link in links {
        pairs.insert((link.a.min(link.b), link.a.max(link.b)))?;
    }
    Ok(pairs)
}

// Makes the pair's link cheaper, or adds it.
fn put(
    links: &mut Vec<Link>,
    pairs: &mut IndexSet<(u32, u32)>,
    link: Link,
) -> Result<(), AllocError>
    requires { pairs.old.keys ≡ map ends links.old.items }
    ensures links { OnOk result (links.new.items ≡ put_link links.old.items link) }
    ensures pairs { OnOk result (pairs.new.keys ≡ map ends links.new.items) }
{
    let low = link.a.min(link.b);
    let high = link.a.max(link.b);
    let (index, is_new) = pairs.insert_full((low, high))?;
    if is_new {
        links.push(Link {
            a: low,
            b: high,
            cost: link.cost,
        })?;
    } else {
        let kept = &mut links[index];
        kept.cost = kept.cost.min(link.cost);
    }
    Ok(())
}

// What is stated of each vertex, from 1 on.
pub fn merge_needs(
    alloc: Global,
    vertices: u32,
    stated: &[(u32, Need)],
) -> Result<Vec<Need>, AllocError>
    requires { All (λ s. IsVertex vertices s.0) stated.now }
    ensures { IfOk result (λ needs. needs.items ≡ map (stated_need stated.now) (up_to vertices)) }
{
    let mut needs = vec![in alloc; Need::Pays(0); vertices as usize]?;
    for (vertex, need) in stated {
        let index = *vertex as usize - 1;
        needs[index] = needs[index].and(*need);
    }
    Ok(needs)
}

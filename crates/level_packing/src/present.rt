ghost use Rattle.std.specs.Prelude.{◌≡◌, ℕ, IfOk, IfSome, All, filter};
ghost use Rattle.std.specs.List.Sorted.{IsNonDecreasingBy};
ghost use Rattle.st_model.specs.Network.{link};
ghost use Rattle.level_packing.specs.Forest.{IsPresent, IsPresentLink, IsToCome, has_present_ends};

use st_model::{Instance, Link, Sides};
use std::alloc::{AllocError, Global};

// The links between present vertices, in ascending order of cost.
pub fn present_links(
    alloc: Global,
    instance: &Instance,
    branch: &Sides,
) -> Result<Vec<Link>, AllocError>
    ensures links { IfOk result (λ links. All (IsPresentLink instance.now branch.now) links.items) }
    ensures ascending { IfOk result (λ links. IsNonDecreasingBy (λ l. l.cost) links.items) }
    ensures complete { IfOk result (λ links. (u v : ℕ) → IsPresent instance.now branch.now u
        → IsPresent instance.now branch.now v
        → IfSome (link instance.now.links u v) (IsToCome links.items u v)) }
{
    let mut links = kept(alloc, instance.links(), branch)?;
    links.sort_by_key(|link| link.cost)?;
    Ok(links)
}

// The links that have neither end outside.
fn kept(alloc: Global, links: &[Link], branch: &Sides) -> Result<Vec<Link>, AllocError>
    ensures { IfOk result (λ kept. kept.items ≡ filter (has_present_ends branch.now) links.now) }
{
    links
        .iter()
        .copied()
        .filter(|link| !branch.is_outside(link.a) && !branch.is_outside(link.b))
        .collect(alloc)
}

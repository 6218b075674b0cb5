ghost use Rattle.std.specs.Prelude.{◌≡◌, IfOk};
ghost use Rattle.st_model.specs.Branch.{IsBranch};
ghost use Rattle.level_packing.specs.Settled.{IsSettled, settled, settled_links};

use st_model::{Instance, Link, Sides};
use std::alloc::{AllocError, Global};

// The instance without the barred links, in which those that are a must cost nothing.
pub fn settled(alloc: Global, instance: &Instance, branch: &Sides) -> Result<Instance, AllocError>
    ensures { IfOk result (IsSettled instance.now branch.now) }
{
    let links = settled_links(alloc, instance.links(), branch)?;
    let needs = Vec::from_slice(alloc, instance.needs())?;
    Instance::from_parts(alloc, instance.vertices(), links, needs)
}

// The links that aren't barred, those that are a must at no cost.
fn settled_links(alloc: Global, links: &[Link], branch: &Sides) -> Result<Vec<Link>, AllocError>
    ensures { IfOk result (λ left. left.items ≡ settled_links branch.now links.now) }
{
    let mut left = Vec::new(alloc);
    for link in links {
        if !branch.is_barred(link.a, link.b) {
            left.push(settled_link(*link, branch))?;
        }
    }
    Ok(left)
}

// A link, at no cost where it is a must.
fn settled_link(link: Link, branch: &Sides) -> Link
    ensures { result ≡ settled branch.now link }
{
    if branch.is_must(link.a, link.b) {
        Link { cost: 0, ..link }
    } else {
        link
    }
}

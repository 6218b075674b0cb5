ghost use Rattle.std.specs.Prelude.{◌≡◌, true, IfOk, replicate};

use crate::links::Links;
use st_model::Instance;
use std::alloc::{AllocError, Global};

// The links of an instance.
pub fn link_all(alloc: Global, instance: &Instance) -> Result<Links, AllocError>
    ensures { IfOk result (λ made. made ≡ record { n = instance.now.n; links = instance.now.links }) }
{
    let mut links = Links::none(alloc, instance.vertices())?;
    for link in instance.links() {
        links.attach(link.a, link.b, link.cost)?;
    }
    Ok(links)
}

// A mark for each vertex.
pub fn present_all(alloc: Global, vertices: u32) -> Result<Vec<bool>, AllocError>
    ensures { IfOk result (λ present. present.items ≡ replicate vertices true) }
{
    vec![in alloc; true; vertices as usize]
}

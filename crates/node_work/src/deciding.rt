ghost use Rattle.std.specs.Prelude.{IfSome, IfNone, IsTrue};
ghost use Rattle.st_model.specs.Branch.{NoneIsCertain, is_certain};
ghost use Rattle.st_model.specs.Network.{IsVertex};
ghost use Rattle.cut_packing.specs.Packing.{Fits};
ghost use Rattle.dual_ascent.specs.Extension.{IsRootFor};

use cut_packing::Packing;
use st_model::{Instance, Sides};

/// A root for a branch's packing and for the cuts to come: the packing's own, or else the first
/// vertex that is required or inside, if there is one.
pub fn root_of(instance: &Instance, branch: &Sides, packing: &Packing) -> Option<u32>
    requires { Fits instance.now branch.now packing.now }
    ensures some { IfSome result (IsRootFor instance.now branch.now packing.now) }
    ensures none { IfNone result (NoneIsCertain instance.now branch.now) }
{
    match packing.root {
        Some(root) => Some(root),
        None => first_certain(instance, branch),
    }
}

// The first vertex that is required or inside.
fn first_certain(instance: &Instance, branch: &Sides) -> Option<u32>
    ensures vertex { IfSome result (IsVertex instance.now.n) }
    ensures certain { IfSome result (λ v. IsTrue (is_certain instance.now branch.now v)) }
    ensures none { IfNone result (NoneIsCertain instance.now branch.now) }
{
    for before in 0..instance.vertices() {
        let vertex = before + 1;
        if branch.is_certain(instance, vertex) {
            return Some(vertex);
        }
    }
    None
}

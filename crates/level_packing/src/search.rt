ghost use Rattle.std.specs.Prelude.{◌≡◌, ◌≢◌, ◌≤◌, ℕ, ◌+◌, IfSome, IfNone, length};
ghost use Rattle.st_model.specs.Network.{IsInstance};
ghost use Rattle.level_packing.specs.Forest.{IsPresent, groups, cluster_of};

use crate::forest::Forest;
use st_model::{Instance, Sides};

// The first vertex that isn't outside.
pub fn first_present(instance: &Instance, branch: &Sides) -> Option<u32>
    ensures found { IfSome result (IsPresent instance.now branch.now) }
    ensures none { IfNone result ((v : ℕ) → IsPresent instance.now branch.now v → ⊥) }
    ensures instance { IsInstance instance.now }
{
    for before in 0..instance.vertices() {
        if !branch.is_outside(before + 1) {
            return Some(before + 1);
        }
    }
    None
}

// The first present vertex that is in another cluster than the root.
pub fn first_apart(instance: &Instance, branch: &Sides, forest: &Forest, root: u32) -> Option<u32>
    requires len { length forest.now.cluster.items ≡ instance.now.n + 1 }
    requires root { root ≤ instance.now.n }
    ensures present { IfSome result (IsPresent instance.now branch.now) }
    ensures apart { IfSome result
        (λ v. cluster_of (groups forest.now) v ≢ cluster_of (groups forest.now) root) }
    ensures none { IfNone result ((v : ℕ) → IsPresent instance.now branch.now v
        → cluster_of (groups forest.now) v ≡ cluster_of (groups forest.now) root) }
{
    let of_root = forest.cluster[root as usize];
    for before in 0..instance.vertices() {
        let vertex = before + 1;
        if !branch.is_outside(vertex) && forest.cluster[vertex as usize] != of_root {
            return Some(vertex);
        }
    }
    None
}

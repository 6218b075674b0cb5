ghost use Rattle.std.specs.Prelude.{◌≡◌};
ghost use Rattle.st_model.specs.Arborescence.{IsArborescence, cost};
ghost use Rattle.st_model.specs.Lists.{sum_to};
ghost use Rattle.st_model.specs.Network.{IsInstance, pays};

use crate::{Instance, Tree};

/// What a tree costs: its links, and the prizes of all vertices that it doesn't reach.
pub fn tree_cost(instance: &Instance, tree: &Tree) -> u64
    requires { IsArborescence instance.now tree.now }
    ensures { result ≡ cost instance.now tree.now }
{
    let mut links = 0;
    let mut missed = all_prizes(instance) - instance.prize(tree.start);
    for (tail, head) in tree.arcs.as_slice() {
        links += instance.link_cost(*tail, *head).unwrap_or(0);
        missed -= instance.prize(*head);
    }
    links + missed
}

// The prizes of all vertices.
fn all_prizes(instance: &Instance) -> u64
    ensures sum { result ≡ sum_to (pays instance.now) instance.now.n }
    ensures instance { IsInstance instance.now }
{
    let mut sum = 0;
    for before in 0..instance.vertices() {
        sum += instance.prize(before + 1);
    }
    sum
}

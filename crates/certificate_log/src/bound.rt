ghost use Rattle.std.specs.Prelude.{◌≡◌, All, min};
ghost use Rattle.st_model.specs.Branch.{IsBranch};
ghost use Rattle.search_core.specs.Complete.{waiting};
ghost use Rattle.certificate_log.specs.Bound.{lowest_weight};

use branching::Node;
use cut_packing::weight;
use search_core::Gathered;
use st_model::Instance;

/// The least of the least value and of what the nodes that wait weigh. Takes time linear in their
/// branches and cuts and, for each link that is a must of a node, in the sizes of all sets of its
/// cuts.
pub fn bound_of(instance: &Instance, gathered: &Gathered) -> u64
    requires { All (λ N. IsBranch instance.now N.branch) (waiting gathered.now) }
    ensures { result ≡ lowest_weight instance.now gathered.now.least (waiting gathered.now) }
{
    let mut bound = gathered.least;
    for segment in gathered.segments.as_slice() {
        bound = lowest(instance, bound, segment.left.as_slice());
    }
    lowest(instance, bound, gathered.queued.as_slice())
}

// The least of a number and of what some nodes weigh.
fn lowest(instance: &Instance, top: u64, nodes: &[Node]) -> u64
    requires { All (λ N. IsBranch instance.now N.branch) nodes.now }
    ensures { result ≡ lowest_weight instance.now top nodes.now }
{
    let mut bound = top;
    for node in nodes {
        bound = lesser(bound, weight(instance, &node.branch, &node.packing));
    }
    bound
}

// The lesser of two numbers.
fn lesser(bound: u64, weight: u128) -> u64
    ensures { result ≡ min bound weight }
{
    if weight < u128::from(bound) {
        weight as u64
    } else {
        bound
    }
}

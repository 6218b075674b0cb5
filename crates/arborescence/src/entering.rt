ghost use Rattle.std.specs.Prelude.{◌≡◌, ◌≤◌, length, All, Some, None};
ghost use Rattle.arborescence.specs.Choosing.{least_in, least_over, lesser};

use crate::raising::left;
use cut_packing::{LoadedArc, LoadedArcs};
use st_model::VertexSet;

// An arc into a set, with what is left of it.
#[derive(Clone, Copy)]
pub struct Entering {
    pub tail: u32,
    pub head: u32,
    pub left: u64,
}

// The arc into a set from outside of which the least is left, if there is one.
pub fn least_entering(arcs: &LoadedArcs, set: &VertexSet) -> Option<Entering>
    requires bears { All (All (λ arc. arc.load ≤ arc.cost)) arcs.now }
    requires count { set.now.count ≡ length arcs.now }
    ensures { result ≡ least_over arcs.now set.now.members None set.now.members }
{
    let mut least = None;
    for head in set.members() {
        least = least_into(arcs.at(*head), set, *head, least);
    }
    least
}

// Of the arcs into a head from outside a set, and one that is given, that of which the least is left.
fn least_into(
    arcs: &[LoadedArc],
    set: &VertexSet,
    head: u32,
    given: Option<Entering>,
) -> Option<Entering>
    requires { All (λ arc. arc.load ≤ arc.cost) arcs.now }
    ensures { result ≡ least_in set.now.members head given arcs.now }
{
    let mut least = given;
    for arc in arcs {
        if !set.contains(arc.tail) {
            let entering = Entering {
                tail: arc.tail,
                head,
                left: left(arc),
            };
            least = Some(lesser(least, entering));
        }
    }
    least
}

// Of two arcs the one of which less is left, the first where there is no difference.
fn lesser(first: Option<Entering>, second: Entering) -> Entering
    ensures { result ≡ lesser first second }
{
    match first {
        Some(first) if first.left <= second.left => first,
        _ => second,
    }
}

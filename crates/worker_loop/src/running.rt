ghost use Rattle.std.specs.Prelude.{◌≡◌, ◌<◌, ◌≤◌, IsFalse, All, IfOk, IfSome};
ghost use Rattle.st_model.specs.Arborescence.{IsTree, cost};
ghost use Rattle.st_model.specs.Branch.{ReachesAsTold, IsBranch, NoneIsCertain};
ghost use Rattle.st_model.specs.Lists.{sum_to};
ghost use Rattle.st_model.specs.Network.{pays};
ghost use Rattle.log_format.specs.Text.{IsWritablePacking};
ghost use Rattle.search_core.specs.Complete.{AllPackings, IsAtVertex, IsComplete, IsFinished, records};
ghost use Rattle.search_core.specs.State.{root_of};
ghost use Rattle.node_work.specs.Node.{IsWritableNode};
ghost use Rattle.worker_loop.specs.Progress.{IsAim};
ghost use Rattle.worker_loop.specs.Run.{IsAllowed};
ghost use Rattle.worker_loop.specs.Sound.{IsSound};
ghost use Rattle.worker_loop.specs.Team.{IsSearched};

use crate::aim::{Aim, SoundFor};
use crate::crew::Crew;
use crate::hint::Hint;
use crate::team::{handed_back, run_team, team_of};
use crate::{Gate, Limits};
use better_trees::Incumbent;
use branching::Node;
use cut_packing::Packing;
use graph_store::Whole;
use incumbent::Incumbent as LeastCost;
use node_pool::{begin, close, passes_stay_a_pool};
use open_ledger::Ledger;
use search_core::{Gathered, no_cuts, root_of};
use st_model::{Branch, Listed, MAX_VERTICES, Tree, tree_cost};
use std::alloc::{AllocError, Global};
use std::marker::Brand;
use std::sync::Wait;
use std::thread::Threads;

// The most claims that a ledger counts. No memory holds so many records.
const MOST_CLAIMS: u64 = (1 << 63) - 1;

/// Searches for a least tree of the instance among those of a branch, from a first one, the start. What is
/// gathered is *complete*: its records and the nodes that wait are a proof tree. It is *finished*: the trees
/// in it reach what the branch says, the least value is the least of the start's cost and of theirs, and
/// nodes wait only where the whole budget was spent. A tree is found only where it is cheaper than the
/// start, and every packing can be written in a log. Each node that is worked on takes one unit of the
/// budget. Unless the limits say so no node is split at a link.
///
/// Each worker runs in a thread of its own where one can be made, and else they run one after
/// another.
pub fn run_all<R: Threads + Wait + Sync, G: Gate>(
    rt: &R,
    alloc: Global,
    whole: &Whole,
    branch: &Branch,
    start: &Tree,
    limits: Limits,
    gate: &G,
) -> Result<Gathered, AllocError>
    requires branch { IsBranch whole.now.instance branch.now }
    requires tree { IsTree whole.now.instance start.now }
    requires reaches { ReachesAsTold branch.now start.now }
    // Where nobody has to be reached, the start is no dearer than leaving everybody out.
    requires cheap { NoneIsCertain whole.now.instance branch.now
        → cost whole.now.instance start.now ≤ sum_to (pays whole.now.instance) whole.now.instance.n }
    ensures complete { IfOk result (λ G. IsComplete G whole.now.instance branch.now
        (cost whole.now.instance start.now) limits.budget) }
    ensures finished { IfOk result (λ G. IsFinished G whole.now.instance branch.now
        (cost whole.now.instance start.now) limits.budget) }
    ensures cheaper { IfOk result (λ G. All (λ s. IfSome s.best
        (λ t. cost whole.now.instance t < cost whole.now.instance start.now)) G.segments) }
    ensures writable { IfOk result (AllPackings IsWritablePacking) }
    ensures sites { IsFalse limits.links → IfOk result (λ G. All IsAtVertex (records G)) }
{
    // So that each vertex can be written.
    prove!(whole.instance.vertices() <= MAX_VERTICES);
    let first = tree_cost(&whole.instance, start);
    let hint = Hint::none();
    let crew = Crew {
        rt,
        alloc,
        whole,
        start,
        hint: &hint,
        gate,
    };
    let packing = no_cuts(alloc);
    let gathered = searched::<Brand, R, G>(&crew, branch, packing, first, limits.seated())?;
    Ok(gathered)
}

/// The same from a node on: the trees asked for are those of its branch, the search begins with its cuts,
/// and all that is known of trees is that one costs no more than the incumbent. Of the incumbent's tree nothing has to
/// hold: workers look at it to see where trees branch. The node's number is not looked at: in what is gathered, it has
/// the number 0.
pub fn run_all_from<R: Threads + Wait + Sync, G: Gate>(
    rt: &R,
    alloc: Global,
    whole: &Whole,
    node: Node,
    incumbent: &Incumbent<'_>,
    limits: Limits,
    gate: &G,
) -> Result<Gathered, AllocError>
    requires node { IsWritableNode whole.now.instance node }
    // Where nobody has to be reached, it is no more than leaving everybody out costs.
    requires cheap { NoneIsCertain whole.now.instance node.branch
        → incumbent.now.cost ≤ sum_to (pays whole.now.instance) whole.now.instance.n }
    ensures complete { IfOk result
        (λ G. IsComplete G whole.now.instance node.branch incumbent.now.cost limits.budget) }
    ensures finished { IfOk result
        (λ G. IsFinished G whole.now.instance node.branch incumbent.now.cost limits.budget) }
    ensures cheaper { IfOk result
        (λ G. All (λ s. IfSome s.best (λ t. cost whole.now.instance t < incumbent.now.cost)) G.segments) }
    ensures writable { IfOk result (AllPackings IsWritablePacking) }
    ensures sites { IsFalse limits.links → IfOk result (λ G. All IsAtVertex (records G)) }
{
    prove!(whole.instance.vertices() <= MAX_VERTICES);
    let hint = Hint::none();
    let crew = Crew {
        rt,
        alloc,
        whole,
        start: incumbent.tree,
        hint: &hint,
        gate,
    };
    let Node {
        branch,
        packing,
        ..
    } = node;
    let first = incumbent.cost;
    let limits = limits.seated();
    let gathered = searched::<Brand, R, G>(&crew, &branch, packing, first, limits)?;
    Ok(gathered)
}

// The search for an aim from a packing on, where a tree of this cost is known.
fn searched<Q: Aim + Send, R: Threads + Wait + Sync, G: Gate>(
    crew: &Crew<'_, R, G>,
    branch: &Branch,
    packing: Packing,
    first: u64,
    limits: Limits,
) -> Result<Gathered, AllocError>
    requires whole { crew.now.whole.now.instance ≡ Q.instance }
    requires same { branch.now ≡ Q.branch }
    requires first { first ≡ Q.start }
    requires aim { IsAim Q.instance Q.branch Q.start }
    requires root { IsSound Q.instance Q.branch (root_of Q.branch packing) }
    requires few { (0 < limits.workers) × (limits.workers ≤ 64) }
    ensures searched { IfOk result (λ G. IsSearched G Q.instance Q.branch Q.start limits.budget) }
    ensures sites { IfOk result (λ G. All (IsAllowed limits.links) (records G)) }
{
    let alloc = crew.alloc;
    let allowed = limits.budget.min(MOST_CLAIMS);
    let workers = limits.workers;
    let root = root_of(alloc, branch, packing)?;
    let passes = begin::<SoundFor<Q>>(alloc, workers, root)?;
    let (ledger, accounts) = Ledger::begin(alloc, allowed, workers)?;
    let (incumbent, sights) = LeastCost::begin(alloc, first, workers)?;
    let mut team = team_of(alloc, workers, limits.links, passes, accounts, sights)?;
    run_team(crew, team.as_mut_slice(), workers as usize);
    let returned = handed_back(alloc, team)?;
    passes_stay_a_pool();
    let queued = close(alloc, returned.passes)?;
    let totals = ledger.close(returned.accounts);
    let least = incumbent.close(returned.sights);
    if totals.claimed == MOST_CLAIMS {
        return Err(AllocError);
    }
    Ok(Gathered {
        segments: Listed::of(returned.segments),
        queued: Listed::of(queued),
        least,
        claimed: totals.claimed,
    })
}

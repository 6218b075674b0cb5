ghost use Rattle.std.specs.Prelude.{◌≡◌, ◌≤◌, IfOk, IfSome, IfNone, None};
ghost use Rattle.st_model.specs.Arborescence.{IsTree, cost};
ghost use Rattle.st_model.specs.Branch.{NoneIsCertain, all_trees};
ghost use Rattle.st_model.specs.Lists.{sum_to};
ghost use Rattle.st_model.specs.Network.{pays};
ghost use Rattle.resuming.specs.GoingOn.{GoOn, IsKnown};

use crate::Known;
use crate::searching::search_from;
use graph_store::Whole;
use log_resume::Closes;
use search_core::Searched;
use std::alloc::{AllocError, Global};
use std::sync::Wait;
use std::thread::Threads;
use worker_loop::{Gate, Limits};

/// The searches that went on from closes, the first first, and what is known of trees in the end.
#[derive(Drop)]
pub struct Gone {
    pub searches: Vec<Searched>,
    pub known: Known,
}

/// Goes on from each close that weighs less than the least cost known at its turn, in the order of
/// the lines, each time with what is left of the budget. No node is split at a link. Where no budget
/// is left no worker begins, and the branch of the close waits without cuts.
pub fn go_on<R: Threads + Wait + Sync, G: Gate>(
    rt: &R,
    alloc: Global,
    whole: &Whole,
    closes: Closes<'_>,
    known: Known,
    limits: Limits,
    gate: &G,
) -> Result<Gone, AllocError>
    requires same { closes.instance ≡ whole.now.instance }
    requires tree { IfSome known.tree
        (λ t. IsTree whole.now.instance t × (cost whole.now.instance t ≡ known.least)) }
    // Where nobody is required, the least cost is no more than leaving everybody out costs.
    requires cheap { NoneIsCertain whole.now.instance all_trees
        → known.least ≤ sum_to (pays whole.now.instance) whole.now.instance.n }
    ensures searches { IfOk result (λ gone. GoOn whole.now.instance closes.entry.nodes known.least
        limits.budget gone.searches.items gone.known.least) }
    ensures tree { IfOk result (λ gone. IfSome gone.known.tree
        (IsKnown whole.now.instance known.tree closes.entry.nodes gone.known.least)) }
    ensures none { IfOk result (λ gone. IfNone gone.known.tree
        ((gone.known.least ≡ known.least) × (known.tree ≡ None))) }
{
    let mut searches = Vec::new(alloc);
    let mut known = known;
    let mut closes = closes;
    let mut budget = limits.budget;
    while let Some((node, rest)) = closes.next_below(alloc, known.least)? {
        let limits = Limits { budget, ..limits };
        let incumbent = known.incumbent();
        let search = search_from(rt, alloc, whole, node, &incumbent, limits, gate)?;
        budget -= search.gathered.claimed;
        known = known.after(alloc, &whole.instance, search.gathered.segments.as_slice())?;
        searches.push(search)?;
        closes = rest;
    }
    Ok(Gone { searches, known })
}

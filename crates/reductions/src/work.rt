ghost use Rattle.std.specs.Prelude.{◌≡◌, ℕ, ◌+◌, ◌<◌, ◌≤◌, ◌∷◌, ◌++◌, true, IfOk, IfSome, IfNone, OnOk, length};
ghost use Rattle.std.specs.Bool.{OnTrue, OnFalse};
ghost use Rattle.st_model.specs.Lists.{up_to};
ghost use Rattle.st_model.specs.Network.{IsVertex};
ghost use Rattle.lift_back.specs.Detours.{IsDetour};
ghost use Rattle.lift_back.specs.State.{IsState};
ghost use Rattle.lift_back.specs.Steps.{MayTake};
ghost use Rattle.special_dist.specs.Answers.{HasNoDetour};
ghost use Rattle.reductions.specs.Results.{HasNoDetourStep, HasNoStepAt};
ghost use Rattle.reductions.specs.Sizes.{size};
ghost use Rattle.reductions.specs.Working.{HasGone, HasTried, IsSettled, IsWork, TookStep, Went, load, row_of};

use graph_store::Store;
use lift_back::{ApplyError, Ends, Reduced, Step};
use special_dist::{Finder, Found};
use st_model::{Instance, Link, Listed, VertexSet};
use std::alloc::{AllocError, Global};
use std::cmp::Reverse;

// An instance under reduction.
#[derive(Drop)]
pub struct Work {
    pub reduced: Reduced,
    // The steps so far.
    pub steps: Vec<Step>,
    // The vertices whose links or needs changed since steps were tried there.
    pub queue: Vec<u32>,
}

impl Work {
    // All of an instance; no step was tried.
    pub fn of(alloc: Global, instance: &Instance) -> Result<Work, AllocError>
        ensures work { IfOk result (λ work. IsWork work work.queue.items) }
        ensures first { IfOk result (λ work. work.reduced.first ≡ instance.now) }
    {
        Ok(Work {
            reduced: Reduced::of(alloc, instance)?,
            steps: Vec::new(alloc),
            queue: all_vertices(alloc, instance.vertices())?,
        })
    }

    // Takes steps by which a vertex goes, until there is none. The vertices round those that went are
    // put after the others.
    pub fn settle(&mut self, around: &mut Vec<u32>) -> Result<(), AllocError>
        requires { IsWork self.old self.old.queue.items }
        ensures settled { OnOk result (IsSettled self.new) }
        ensures size { OnOk result (size self.new.reduced.state ≤ size self.old.reduced.state) }
        ensures first { self.new.reduced.first ≡ self.old.reduced.first }
    {
        while let Some(vertex) = self.queue.pop() {
            let ends = self.settle_at(vertex)?;
            push_ends(around, ends)?;
        }
        Ok(())
    }

    // Takes a step by which a vertex goes, if there is one; what its links led to is to be looked at
    // then, and is answered.
    fn settle_at(&mut self, vertex: u32) -> Result<Ends, AllocError>
        requires { IsWork self.old (vertex ∷ self.old.queue.items) }
        ensures work { OnOk result (IsWork self.new self.new.queue.items) }
        ensures size { OnOk result (size self.new.reduced.state ≤ size self.old.reduced.state) }
        ensures load { OnOk result (load self.new ≤ load self.old) }
        ensures first { self.new.reduced.first ≡ self.old.reduced.first }
    {
        let Some(ends) = self.let_go(vertex)? else {
            return Ok(Ends::Nobody);
        };
        push_ends(&mut self.queue, ends)?;
        Ok(ends)
    }

    // Takes a step by which a vertex goes, and answers where its links led; None where there is no
    // such step.
    fn let_go(&mut self, vertex: u32) -> Result<Option<Ends>, AllocError>
        requires { IsVertex self.old.reduced.state.instance.n vertex }
        ensures gone { IfOk result (λ gone. IfSome gone (HasGone self.old self.new vertex)) }
        ensures stays { IfOk result (λ gone. IfNone gone
            (HasNoStepAt self.old.reduced.state vertex × (self.new ≡ self.old))) }
        ensures first { self.new.reduced.first ≡ self.old.reduced.first }
        ensures queue { self.new.queue ≡ self.old.queue }
    {
        let ends = self.reduced.ends(vertex);
        if self.goes(vertex)? {
            return Ok(Some(ends));
        }
        Ok(None)
    }

    // Takes a step by which a vertex goes, and answers whether there was one.
    fn goes(&mut self, vertex: u32) -> Result<bool, AllocError>
        ensures went { IfOk result (λ went. OnTrue went (Went self.old self.new vertex)) }
        ensures stays { IfOk result (λ went. OnFalse went
            (HasNoStepAt self.old.reduced.state vertex × (self.new ≡ self.old))) }
        ensures state { IfOk result (λ went. OnTrue went (IsState self.new.reduced.state)) }
        ensures first { self.new.reduced.first ≡ self.old.reduced.first }
        ensures queue { self.new.queue ≡ self.old.queue }
    {
        if self.take(Step::Pendant(vertex))? {
            return Ok(true);
        }
        if self.take(Step::Through(vertex))? {
            return Ok(true);
        }
        if self.take(Step::Forced(vertex))? {
            return Ok(true);
        }
        Ok(false)
    }

    // Takes a step, and answers whether it may be taken.
    fn take(&mut self, step: Step) -> Result<bool, AllocError>
        ensures took { IfOk result (λ taken. OnTrue taken (TookStep self.old self.new step)) }
        ensures refused { IfOk result (λ taken. OnFalse taken
            ((¬ MayTake step self.old.reduced.state) × (self.new ≡ self.old))) }
        ensures state { IfOk result (λ taken. OnTrue taken (IsState self.new.reduced.state)) }
        ensures first { self.new.reduced.first ≡ self.old.reduced.first }
        ensures queue { self.new.queue ≡ self.old.queue }
    {
        match self.reduced.apply(&step) {
            Ok(()) => {
                self.steps.push(step)?;
                Ok(true)
            }
            Err(ApplyError::StepFault) => Ok(false),
            Err(ApplyError::NoMemory) => Err(AllocError),
        }
    }

    // Looks for a detour for each link, and takes those that it finds. Answers whether it took any.
    pub fn pass(&mut self, alloc: Global, finder: &mut Finder) -> Result<bool, AllocError>
        requires work { IsWork self.old self.old.queue.items }
        requires finder { finder.old ≡ self.old.reduced.first.n }
        ensures work { OnOk result (IsWork self.new self.new.queue.items) }
        ensures some { IfOk result (λ any. OnTrue any (size self.new.reduced.state < size self.old.reduced.state)) }
        ensures none { IfOk result (λ any. OnFalse any
            ((self.new ≡ self.old) × HasNoDetourStep self.new.reduced.state)) }
        ensures first { self.new.reduced.first ≡ self.old.reduced.first }
        ensures finder { finder.new ≡ finder.old }
    {
        let links = self.reduced.store().links(alloc)?;
        let any = self.try_links(alloc, finder, &links, None)?;
        Ok(any)
    }

    // Looks for detours that are soon found, for all links or for those with an end in a set, the
    // dearest first, and takes them.
    pub fn sweep(
        &mut self,
        alloc: Global,
        finder: &mut Finder,
        ends: Option<&VertexSet>,
        most: u32,
    ) -> Result<(), AllocError>
        requires work { IsWork self.old self.old.queue.items }
        requires finder { finder.old ≡ self.old.reduced.first.n }
        ensures work { OnOk result (IsWork self.new self.new.queue.items) }
        ensures first { self.new.reduced.first ≡ self.old.reduced.first }
        ensures finder { finder.new ≡ finder.old }
    {
        let links = dearest_first(alloc, self.reduced.store(), ends)?;
        self.try_links(alloc, finder, &links, Some(most))?;
        Ok(())
    }

    // Looks for a detour for each of some links, and takes those that it finds. Answers whether it
    // took any.
    fn try_links(
        &mut self,
        alloc: Global,
        finder: &mut Finder,
        links: &[Link],
        most: Option<u32>,
    ) -> Result<bool, AllocError>
        requires work { IsWork self.old self.old.queue.items }
        requires finder { finder.old ≡ self.old.reduced.first.n }
        ensures work { OnOk result (IsWork self.new self.new.queue.items) }
        ensures tried { IfOk result (λ any. HasTried self.old self.new any most links.now) }
        ensures first { self.new.reduced.first ≡ self.old.reduced.first }
        ensures finder { finder.new ≡ finder.old }
    {
        let mut any = false;
        for link in links {
            let dropped = self.drops(alloc, finder, link.a, link.b, most)?;
            any = any | dropped;
        }
        Ok(any)
    }

    // Takes a detour for a link, and answers whether one was found.
    fn drops(
        &mut self,
        alloc: Global,
        finder: &mut Finder,
        a: u32,
        b: u32,
        most: Option<u32>,
    ) -> Result<bool, AllocError>
        requires work { IsWork self.old self.old.queue.items }
        requires finder { finder.old ≡ self.old.reduced.first.n }
        ensures work { OnOk result (IsWork self.new self.new.queue.items) }
        ensures some { IfOk result (λ dropped. OnTrue dropped
            (size self.new.reduced.state < size self.old.reduced.state)) }
        ensures none { IfOk result (λ dropped. OnFalse dropped
            ((self.new ≡ self.old) × (most ≡ None → HasNoDetour self.old.reduced.state.instance a b))) }
        ensures first { self.new.reduced.first ≡ self.old.reduced.first }
        ensures finder { finder.new ≡ finder.old }
    {
        let store = self.reduced.store();
        if store.link_cost(a, b).is_none() {
            return Ok(false);
        }
        match finder.find(alloc, store, a, b, most)? {
            Found::Detour(inner) => self.drop_link(a, b, Listed::of(inner)),
            Found::Nothing => Ok(false),
            Found::GaveUp => Ok(false),
        }
    }

    // Takes a detour for a link. Its ends are to be looked at then.
    fn drop_link(&mut self, a: u32, b: u32, inner: Listed<u32>) -> Result<bool, AllocError>
        requires work { IsWork self.old self.old.queue.items }
        requires detour { IsDetour self.old.reduced.state.instance a b inner }
        ensures work { OnOk result (IsWork self.new self.new.queue.items) }
        ensures dropped { IfOk result (λ dropped. dropped ≡ true) }
        ensures less { OnOk result (size self.new.reduced.state < size self.old.reduced.state) }
        ensures first { self.new.reduced.first ≡ self.old.reduced.first }
    {
        if !self.take(Step::Detour { a, b, inner })? {
            return Ok(false);
        }
        push_ends(&mut self.queue, Ends::Two(a, b))?;
        Ok(true)
    }
}

// Puts where links lead after the others, if there are two at most.
fn push_ends(queue: &mut Vec<u32>, ends: Ends) -> Result<(), AllocError>
    ensures { OnOk result (queue.new.items ≡ queue.old.items ++ row_of ends) }
{
    match ends {
        Ends::One(u) => {
            queue.push(u)?;
            Ok(())
        }
        Ends::Two(a, b) => {
            queue.push(a)?;
            queue.push(b)?;
            Ok(())
        }
        Ends::Nobody | Ends::More => Ok(()),
    }
}

// All vertices up to a number.
fn all_vertices(alloc: Global, vertices: u32) -> Result<Vec<u32>, AllocError>
    ensures { IfOk result (λ all. all.items ≡ up_to vertices) }
{
    let mut all = Vec::new(alloc);
    for before in 0..vertices {
        all.push(before + 1)?;
    }
    Ok(all)
}

// The links of a graph, or those with an end in a set, the dearest first.
fn dearest_first(
    alloc: Global,
    store: &Store,
    ends: Option<&VertexSet>,
) -> Result<Vec<Link>, AllocError> {
    let mut links = store.links(alloc)?;
    if let Some(set) = ends {
        links.retain(|link| set.contains(link.a) || set.contains(link.b));
    }
    links.sort_by_key(|link| Reverse(link.cost))?;
    Ok(links)
}

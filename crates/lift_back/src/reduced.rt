ghost use Rattle.std.specs.Prelude.{◌≡◌, ℕ, [], ◌∷◌, ◌++◌, IfOk, IfErr, IsErrOf, OnOk, OnErr, Some, not};
ghost use Rattle.st_model.specs.Arborescence.{IsTree, cost};
ghost use Rattle.lift_back.specs.State.{IsState, IsTreeOf, whole, worth};
ghost use Rattle.lift_back.specs.Steps.{IsForced, IsPendant, IsThrough, MayTake, Takes, TakesDetour, TakesPendant};
ghost use Rattle.lift_back.specs.Detours.{IsDetour};
ghost use Rattle.lift_back.specs.Ends.{HasEnds};
ghost use Rattle.st_model.specs.Lists.{has};
ghost use Rattle.st_model.specs.Network.{IsVertex};
ghost use Rattle.graph_store.specs.Graph.{is_in};
ghost use Rattle.lift_back.specs.declared.reduced.ApplyError.TheVariants.{NoMemory};

use crate::ends::ends_of;
use crate::lifting::lifted;
use crate::rest::Rest;
use crate::undo::Undo;
use crate::{Ends, Step};
use graph_store::Store;
use st_model::{Instance, Listed, Tree};
use std::alloc::{AllocError, Global};
use std::error::Error;
use std::fmt;
use std::marker::Model;

/// Why a step was not taken.
#[derive(Clone, Copy, Debug, PartialEq, Eq)]
pub enum ApplyError {
    StepFault,
    NoMemory,
}

impl fmt::Display for ApplyError {
    ghost use Rattle.lift_back.specs.Reduction.{message_of};

    ghost output = { λ e. Some (message_of e) };

    fn fmt<W: fmt::Write>(&self, f: &mut fmt::Formatter<W>) -> fmt::Result {
        f.write_str(match self {
            ApplyError::StepFault => "the step may not be taken",
            ApplyError::NoMemory => "out of memory",
        })
    }
}

impl Error for ApplyError {}

impl From<AllocError> for ApplyError {
    ghost from_gives = { λ _ e. e ≡ NoMemory };

    fn from(_e: AllocError) -> Self {
        ApplyError::NoMemory
    }
}

/// An instance under reduction, from which trees lead back to the first instance.
#[derive(Drop)]
pub struct Reduced {
    first: Instance,
    rest: Rest,
    // What leads a tree back over each step, the first step first.
    undos: Vec<Undo>,
}

impl Model for Reduced {
    ghost use Rattle.lift_back.specs.Reduction.{Reduction};
    ghost use Rattle.lift_back.specs.Keeping.{state_of, IsKept};
    ghost use Rattle.lift_back.specs.Undoing.{LeadBack};

    ghost Value = { Reduction };

    ghost view = { λ r. record { first = r.first; state = state_of r.rest } };

    ghost invariant = { λ r. IsKept r.rest × LeadBack r.first r.undos.items (state_of r.rest) };
}

impl Reduced {
    /// The instance itself, of which nobody is gone and nothing is paid.
    pub fn of(alloc: Global, instance: &Instance) -> Result<Reduced, AllocError>
        ensures { IfOk result (λ reduced. reduced ≡ record { first = instance.now; state = whole instance.now }) }
    {
        let rest = Rest::of(alloc, instance)?;
        Ok(Reduced {
            first: instance.copied(alloc)?,
            rest,
            undos: Vec::new(alloc),
        })
    }

    /// What is left as an instance, in time linear in it; who is gone has no link there.
    pub fn instance(&self, alloc: Global) -> Result<Instance, AllocError>
        ensures instance { IfOk result (λ instance. instance ≡ self.now.state.instance) }
    {
        self.rest.store.instance(alloc)
    }

    /// What is paid besides what is left.
    pub fn offset(&self) -> u64
        ensures offset { result ≡ self.now.state.offset }
        ensures state { IsState self.now.state }
    {
        self.rest.offset
    }

    /// The vertices that are gone, ascending.
    pub fn gone(&self, alloc: Global) -> Result<Vec<u32>, AllocError>
        ensures { IfOk result (λ gone. gone.items ≡ self.now.state.gone) }
    {
        self.rest.gone_vertices(alloc)
    }

    /// What is left as a graph under change, of which those who are gone aren't present.
    pub fn store(&self) -> &Store
        ensures network { result.now.network ≡ self.now.state.instance }
        ensures present { (v : ℕ) → IsVertex self.now.state.instance.n v
            → is_in result.now v ≡ not (has self.now.state.gone v) }
    {
        &self.rest.store
    }

    /// Where the links of a vertex lead.
    pub fn ends(&mut self, vertex: u32) -> Ends
        requires { IsVertex self.old.state.instance.n vertex }
        ensures ends { HasEnds self.old.state.instance.links vertex result }
        ensures same { self.new ≡ self.old }
    {
        ends_of(&self.rest.store, vertex)
    }

    /// Takes a step. StepFault comes where the step may not be taken; then, and where memory is
    /// refused, nothing changes.
    pub fn apply(&mut self, step: &Step) -> Result<(), ApplyError>
        ensures ok { OnOk result (Takes step.now self.old.state self.new.state) }
        ensures fault { IsErrOf result ApplyError.StepFault → ¬ MayTake step.now self.old.state }
        ensures err { OnErr result (self.new ≡ self.old) }
        ensures first { self.new.first ≡ self.old.first }
        ensures state { IsState self.new.state }
    {
        match step {
            Step::Pendant(vertex) => self.pendant(*vertex),
            Step::Through(vertex) => self.through(*vertex),
            Step::Forced(vertex) => self.forced(*vertex),
            Step::Detour { a, b, inner } => self.detour(*a, *b, inner.as_slice()),
        }
    }

    /// A tree of the first instance that costs what the tree of what is left costs, and what is
    /// paid besides.
    pub fn lift(&self, alloc: Global, tree: &Tree) -> Result<Tree, AllocError>
        requires { IsTreeOf self.now.state tree.now }
        ensures start { IfOk result (λ lifted. lifted.start ≡ tree.now.start) }
        ensures tree { IfOk result (IsTree self.now.first) }
        ensures cost { IfOk result (λ lifted. cost self.now.first lifted ≡ worth self.now.state tree.now) }
    {
        let arcs = lifted(
            alloc,
            self.first.vertices(),
            tree.start,
            &self.undos,
            tree.arcs.as_slice(),
        )?;
        Ok(Tree {
            start: tree.start,
            arcs: Listed::of(arcs),
        })
    }

    fn pendant(&mut self, vertex: u32) -> Result<(), ApplyError>
        ensures ok { OnOk result (TakesPendant self.old.state self.new.state vertex) }
        ensures fault { IsErrOf result ApplyError.StepFault → ¬ IsPendant self.old.state vertex }
        ensures err { OnErr result (self.new ≡ self.old) }
        ensures first { self.new.first ≡ self.old.first }
        ensures state { IsState self.new.state }
    {
        if !self.rest.pendant(vertex) {
            return Err(ApplyError::StepFault);
        }
        Ok(())
    }

    fn through(&mut self, vertex: u32) -> Result<(), ApplyError>
        ensures ok { OnOk result (Takes (Step.Through vertex) self.old.state self.new.state) }
        ensures fault { IsErrOf result ApplyError.StepFault → (a b x y : ℕ)
            → ¬ IsThrough self.old.state vertex a b x y }
        ensures err { OnErr result (self.new ≡ self.old) }
        ensures first { self.new.first ≡ self.old.first }
        ensures state { IsState self.new.state }
    {
        let Some((a, b, first, second)) = self.rest.through_at(vertex) else {
            return Err(ApplyError::StepFault);
        };
        let undo = self.rest.undo_through(vertex, a, b, first, second);
        push_undo(&mut self.undos, undo)?;
        match self.rest.take_through(vertex, a, b, first, second) {
            Ok(()) => Ok(()),
            Err(_) => {
                self.undos.pop();
                Err(ApplyError::NoMemory)
            }
        }
    }

    fn forced(&mut self, vertex: u32) -> Result<(), ApplyError>
        ensures ok { OnOk result (Takes (Step.Forced vertex) self.old.state self.new.state) }
        ensures fault { IsErrOf result ApplyError.StepFault → (u c : ℕ) → ¬ IsForced self.old.state vertex u c }
        ensures err { OnErr result (self.new ≡ self.old) }
        ensures first { self.new.first ≡ self.old.first }
        ensures state { IsState self.new.state }
    {
        let Some((neighbour, cost)) = self.rest.forced_at(vertex) else {
            return Err(ApplyError::StepFault);
        };
        let undo = Undo::Leaf { vertex, neighbour };
        push_undo(&mut self.undos, undo)?;
        self.rest.take_forced(vertex, neighbour, cost);
        Ok(())
    }

    fn detour(&mut self, a: u32, b: u32, inner: &[u32]) -> Result<(), ApplyError>
        ensures ok { OnOk result (TakesDetour self.old.state self.new.state a b inner.now) }
        ensures fault { IsErrOf result ApplyError.StepFault → ¬ IsDetour self.old.state.instance a b inner.now }
        ensures err { OnErr result (self.new ≡ self.old) }
        ensures first { self.new.first ≡ self.old.first }
        ensures state { IsState self.new.state }
    {
        if !self.rest.detour(a, b, inner) {
            return Err(ApplyError::StepFault);
        }
        Ok(())
    }
}

// Puts one more after the others.
fn push_undo(undos: &mut Vec<Undo>, undo: Undo) -> Result<(), ApplyError>
    ensures ok { OnOk result (undos.new.items ≡ undos.old.items ++ undo ∷ []) }
    ensures err { OnErr result (undos.new.items ≡ undos.old.items) }
    ensures memory { IfErr result (λ e. e ≡ NoMemory) }
{
    match undos.push(undo) {
        Ok(()) => Ok(()),
        Err(_) => Err(ApplyError::NoMemory),
    }
}

ghost use Rattle.std.specs.Prelude.{◌≡◌, ◌≤◌, ◌<◌, false, OnOk, OnErr, IfOk};
ghost use Rattle.branching.specs.Node.{yes_node, no_node};
ghost use Rattle.search_core.specs.declared.event.Event.{Event};
ghost use Rattle.search_core.specs.Needs.{IsAllowed};
ghost use Rattle.search_core.specs.Effects.{after};

use crate::workers::{
    await_split, close, come_down, end, hold, offer, put_down, refuse, see, split,
};
use crate::{Done, End, Made, Place, Search};
use branching::{Node, halves_at};
use cut_packing::Packing;
use st_model::SplitAt;
use std::alloc::{AllocError, Global};

impl Search {
    pub(crate) fn take(&mut self, w: u32, id: u64)
        requires { IsAllowed self.old (Event.Take w id) }
        ensures { self.new ≡ after self.old (Event.Take w id) }
    {
        self.nodes.set_place(id, Place::Hand(w));
        hold(&mut self.workers, w, Some(id));
    }

    pub(crate) fn pick(&mut self, w: u32, id: u64)
        requires { IsAllowed self.old (Event.Pick w id) }
        ensures { self.new ≡ after self.old (Event.Pick w id) }
    {
        self.nodes.set_place(id, Place::Hand(w));
        hold(&mut self.workers, w, Some(id));
    }

    pub(crate) fn give(&mut self, w: u32, id: u64)
        requires { IsAllowed self.old (Event.Give w id) }
        ensures { self.new ≡ after self.old (Event.Give w id) }
    {
        self.nodes.set_place(id, Place::Queue(w));
    }

    pub(crate) fn keep(&mut self, w: u32, id: u64)
        requires { IsAllowed self.old (Event.Keep w id) }
        ensures { self.new ≡ after self.old (Event.Keep w id) }
    {
        self.nodes.set_place(id, Place::Left(w));
        put_down(&mut self.workers, w, id);
    }

    pub(crate) fn claim(&mut self, w: u32)
        requires { IsAllowed self.old (Event.Claim w) }
        ensures { self.new ≡ after self.old (Event.Claim w) }
    {
        let id = self.hand(w).unwrap_or(0);
        if self.claims < self.budget {
            self.nodes.claim(id);
            self.claims += 1;
        } else {
            refuse(&mut self.workers, w);
        }
    }

    pub(crate) fn see(&mut self, w: u32)
        requires { IsAllowed self.old (Event.See w) }
        ensures { self.new ≡ after self.old (Event.See w) }
    {
        see(&mut self.workers, w, self.least);
    }

    pub(crate) fn offer(&mut self, w: u32, value: u64)
        requires { IsAllowed self.old (Event.Offer w value) }
        ensures { self.new ≡ after self.old (Event.Offer w value) }
    {
        self.least = self.least.min(value);
        offer(&mut self.workers, w, value, self.least);
    }

    pub(crate) fn down(&mut self, w: u32)
        requires { IsAllowed self.old (Event.Down w) }
        ensures { self.new ≡ after self.old (Event.Down w) }
    {
        self.opened = self.opened.saturating_sub(1);
        come_down(&mut self.workers, w);
    }

    pub(crate) fn see_open(&mut self, w: u32)
        requires { IsAllowed self.old (Event.SeeOpen w) }
        ensures { self.new ≡ after self.old (Event.SeeOpen w) }
    {
        if self.opened == 0 {
            end(&mut self.workers, w, End::OpenZero);
        }
    }

    pub(crate) fn see_halt(&mut self, w: u32)
        requires { IsAllowed self.old (Event.SeeHalt w) }
        ensures { self.new ≡ after self.old (Event.SeeHalt w) }
    {
        if self.halted {
            end(&mut self.workers, w, End::HaltSeen);
        }
    }

    pub(crate) fn halt(&mut self, w: u32)
        requires { IsAllowed self.old (Event.Halt w) }
        ensures { self.new ≡ after self.old (Event.Halt w) }
    {
        self.halted = true;
    }

    pub(crate) fn up(&mut self, w: u32)
        requires { IsAllowed self.old (Event.Up w) }
        ensures { self.new ≡ after self.old (Event.Up w) }
    {
        prove!(self.nodes.len() < usize::MAX);
        self.opened += 1;
        await_split(&mut self.workers, w);
    }

    pub(crate) fn split(
        &mut self,
        w: u32,
        at: SplitAt,
        inside: u64,
        outside: u64,
        packing: Packing,
    ) -> Result<(), AllocError>
        requires { IsAllowed self.old (Event.Split w at inside outside packing) }
        ensures ok { OnOk result (self.new ≡ after self.old (Event.Split w at inside outside packing)) }
        ensures err { OnErr result (self.new ≡ self.old) }
    {
        let alloc = self.nodes.allocator();
        let Some(id) = self.hand(w) else {
            return Err(AllocError);
        };
        let Some(made) = self.nodes.find(id) else {
            return Err(AllocError);
        };
        let (yes, no) = halves_on(alloc, w, &made.node, &packing, at, (inside, outside))?;
        let done = Done::Split {
            id,
            at,
            inside,
            outside,
            packing,
        };
        split(&mut self.workers, &mut self.nodes, w, done, yes, no)?;
        self.nodes.set_place(id, Place::Split);
        Ok(())
    }

    pub(crate) fn close(&mut self, w: u32, packing: Packing) -> Result<(), AllocError>
        requires { IsAllowed self.old (Event.Close w packing) }
        ensures ok { OnOk result (self.new ≡ after self.old (Event.Close w packing)) }
        ensures err { OnErr result (self.new ≡ self.old) }
    {
        let id = self.hand(w).unwrap_or(0);
        prove!(self.nodes.len() < usize::MAX);
        close(&mut self.workers, w, Done::Close { id, packing })?;
        self.nodes.set_place(id, Place::Closed);
        Ok(())
    }
}

// Both halves of a node that a worker splits on a packing.
fn halves_on(
    alloc: Global,
    w: u32,
    node: &Node,
    packing: &Packing,
    at: SplitAt,
    ids: (u64, u64),
) -> Result<(Made, Made), AllocError>
    ensures inside { IfOk result (λ h. h.0 ≡ record {
      node = yes_node (record node.now { packing = packing.now }) at ids.0;
      place = Place.Hand w;
      claimed = false;
    }) }
    ensures outside { IfOk result (λ h. h.1 ≡ record {
      node = no_node (record node.now { packing = packing.now }) at ids.1;
      place = Place.Fresh w;
      claimed = false;
    }) }
{
    let parent = Node {
        id: node.id,
        branch: node.branch.copied(alloc)?,
        packing: packing.shared(alloc)?,
    };
    match halves_at(alloc, parent, at, ids.0, ids.1) {
        Ok((yes, no)) => Ok((fresh(yes, Place::Hand(w)), fresh(no, Place::Fresh(w)))),
        Err((_, error)) => Err(error),
    }
}

// A node that is just made.
fn fresh(node: Node, place: Place) -> Made
    ensures { result ≡ record { node = node; place = place; claimed = false } }
{
    Made {
        node,
        place,
        claimed: false,
    }
}

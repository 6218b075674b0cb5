ghost use Rattle.std.specs.Prelude.{◌≡◌, IfOk, OnOk, OnErr, IfErr, IfSome};
ghost use Rattle.search_core.specs.State.{held, seen};
ghost use Rattle.search_core.specs.Needs.{IsAllowed, IsFault, IsFirstFault, IsPackingFault, IsSplitFault, IsCloseFault};
ghost use Rattle.search_core.specs.Steps.{IsError};
ghost use Rattle.search_core.specs.Effects.{after};

use crate::judging::{close_fault, split_fault};
use crate::{Event, EventFault, Search, StepError};
use cut_packing::Packing;
use std::alloc::AllocError;

impl Search {
    /// Lets an event happen. Where a need of it fails, the first such fault is answered; after it,
    /// and where memory is refused, nothing has changed.
    pub fn step(&mut self, event: Event) -> Result<(), StepError>
        ensures allowed { OnOk result (IsAllowed self.old event) }
        ensures after { OnOk result (self.new ≡ after self.old event) }
        ensures fault { IfErr result (IsError self.old event) }
        ensures err { OnErr result (self.new ≡ self.old) }
    {
        match self.fault(&event) {
            Err(_) => Err(StepError::NoMemory),
            Ok(Some(fault)) => Err(StepError::Event(fault)),
            Ok(None) => match self.happen(event) {
                Ok(()) => Ok(()),
                Err(_) => Err(StepError::NoMemory),
            },
        }
    }

    // The first fault of an event, if it has one.
    fn fault(&self, event: &Event) -> Result<Option<EventFault>, AllocError>
        ensures { IfOk result (IsFirstFault self.now event.now) }
    {
        match self.early_fault(event) {
            Some(fault) => Ok(Some(fault)),
            None => self.packing_fault(event),
        }
    }

    // The fault of an event's packing, if it has one.
    fn packing_fault(&self, event: &Event) -> Result<Option<EventFault>, AllocError>
        ensures { IfOk result (IsPackingFault self.now event.now) }
    {
        match event {
            Event::Split { w, packing, .. } => self.split_packing_fault(*w, packing),
            Event::Close { w, packing } => self.close_packing_fault(*w, packing),
            _ => Ok(None),
        }
    }

    fn split_packing_fault(
        &self,
        w: u32,
        packing: &Packing,
    ) -> Result<Option<EventFault>, AllocError>
        ensures { IfOk result (λ fault. IfSome (held self.now w)
            (λ m. IsSplitFault self.now.instance m.node.branch packing.now (seen self.now w) fault)) }
    {
        match self.held(w) {
            Some(made) => split_fault(
                self.alloc(),
                self.instance(),
                &made.node.branch,
                packing,
                self.seen(w),
            ),
            None => Ok(None),
        }
    }

    fn close_packing_fault(
        &self,
        w: u32,
        packing: &Packing,
    ) -> Result<Option<EventFault>, AllocError>
        ensures { IfOk result (λ fault. IfSome (held self.now w)
            (λ m. IsCloseFault self.now.instance m.node.branch packing.now (seen self.now w) fault)) }
    {
        match self.held(w) {
            Some(made) => close_fault(
                self.alloc(),
                self.instance(),
                &made.node.branch,
                packing,
                self.seen(w),
            ),
            None => Ok(None),
        }
    }

    // What an event does whose needs are met.
    fn happen(&mut self, event: Event) -> Result<(), AllocError>
        requires { IsAllowed self.old event }
        ensures ok { OnOk result (self.new ≡ after self.old event) }
        ensures err { OnErr result (self.new ≡ self.old) }
    {
        match event {
            Event::Split {
                w,
                at,
                inside,
                outside,
                packing,
            } => return self.split(w, at, inside, outside, packing),
            Event::Close { w, packing } => return self.close(w, packing),
            Event::Take { w, id } => self.take(w, id),
            Event::Pick { w, id } => self.pick(w, id),
            Event::Give { w, id } => self.give(w, id),
            Event::Claim { w } => self.claim(w),
            Event::See { w } => self.see(w),
            Event::Offer { w, value } => self.offer(w, value),
            Event::Up { w } => self.up(w),
            Event::Down { w } => self.down(w),
            Event::SeeOpen { w } => self.see_open(w),
            Event::SeeHalt { w } => self.see_halt(w),
            Event::Halt { w } => self.halt(w),
            Event::Keep { w, id } => self.keep(w, id),
        }
        Ok(())
    }
}

//! Events in numbers.
use cut_packing::Packing;
use search_core::Event;
use st_model::{Listed, SplitAt};
use std::alloc::Global;
use test_instances::Draws;

/// What an event is.
#[derive(Clone, Copy)]
pub enum Kind {
    Take,
    Pick,
    Give,
    Claim,
    See,
    Offer,
    Up,
    Split,
    Close,
    Down,
    SeeOpen,
    SeeHalt,
    Halt,
    Keep,
}

/// Any kind.
pub fn any_kind(draws: &mut Draws) -> Kind {
    match draws.below(14) {
        0 => Kind::Take,
        1 => Kind::Pick,
        2 => Kind::Give,
        3 => Kind::Claim,
        4 => Kind::See,
        5 => Kind::Offer,
        6 => Kind::Up,
        7 => Kind::Split,
        8 => Kind::Close,
        9 => Kind::Down,
        10 => Kind::SeeOpen,
        11 => Kind::SeeHalt,
        12 => Kind::Halt,
        _ => Kind::Keep,
    }
}

/// An event, of which only some numbers count. Its packing has no cuts, and this root.
#[derive(Clone, Copy)]
pub struct Draft {
    pub kind: Kind,
    pub w: u32,
    pub id: u64,
    pub v: u32,
    pub inside: u64,
    pub outside: u64,
    pub value: u64,
    pub root: Option<u32>,
}

impl Draft {
    fn packing(&self, alloc: Global) -> Packing {
        Packing {
            root: self.root,
            cuts: Listed::of(Vec::new(alloc)),
        }
    }

    /// The event.
    pub fn event(&self, alloc: Global) -> Event {
        let (w, id) = (self.w, self.id);
        match self.kind {
            Kind::Take => Event::Take { w, id },
            Kind::Pick => Event::Pick { w, id },
            Kind::Give => Event::Give { w, id },
            Kind::Claim => Event::Claim { w },
            Kind::See => Event::See { w },
            Kind::Offer => Event::Offer {
                w,
                value: self.value,
            },
            Kind::Up => Event::Up { w },
            Kind::Split => Event::Split {
                w,
                at: SplitAt::Vertex(self.v),
                inside: self.inside,
                outside: self.outside,
                packing: self.packing(alloc),
            },
            Kind::Close => Event::Close {
                w,
                packing: self.packing(alloc),
            },
            Kind::Down => Event::Down { w },
            Kind::SeeOpen => Event::SeeOpen { w },
            Kind::SeeHalt => Event::SeeHalt { w },
            Kind::Halt => Event::Halt { w },
            Kind::Keep => Event::Keep { w, id },
        }
    }
}

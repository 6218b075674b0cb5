ghost use Rattle.std.specs.Prelude.{◌≡◌};
ghost use Rattle.st_model.specs.Network.{prize};
ghost use Rattle.st_model.specs.Stated.{both};

/// What a vertex needs: to be reached, or its prize to be paid where it isn't.
#[derive(Clone, Copy, Debug, PartialEq, Eq)]
pub enum Need {
    Required,
    Pays(u64),
}

impl Need {
    /// What a vertex of this need pays where it isn't reached: 0 where it is required.
    pub fn prize(self) -> u64
        ensures { result ≡ prize self }
    {
        match self {
            Need::Required => 0,
            Need::Pays(prize) => prize,
        }
    }

    /// Both needs at once: Required wins, and else the greater prize.
    pub fn and(self, other: Need) -> Need
        ensures { result ≡ both self other }
    {
        match (self, other) {
            (Need::Pays(prize), Need::Pays(other_prize)) => Need::Pays(prize.max(other_prize)),
            _ => Need::Required,
        }
    }
}

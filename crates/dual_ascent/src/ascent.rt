ghost use Rattle.std.specs.Prelude.{◌≡◌};
ghost use Rattle.dual_ascent.specs.Extension.{has_reached, packing_of};

use cut_packing::Packing;

/// How an ascent ended, with its cuts.
#[derive(Debug, Drop)]
pub enum Ascent {
    /// The cuts weigh less than the target, and none can be added.
    Full(Packing),
    /// The cuts weigh as much as the target.
    Reached(Packing),
}

impl Ascent {
    /// The cuts.
    pub fn packing(&self) -> &Packing
        ensures { result.now ≡ packing_of self.now }
    {
        match self {
            Ascent::Full(packing) | Ascent::Reached(packing) => packing,
        }
    }

    /// Whether the cuts weigh as much as the target.
    pub fn is_reached(&self) -> bool
        ensures { result ≡ has_reached self.now }
    {
        matches!(self, Ascent::Reached(_))
    }
}

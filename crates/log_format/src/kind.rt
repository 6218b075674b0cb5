ghost use Rattle.std.specs.Prelude.{◌≡◌, codes};
ghost use Rattle.log_format.specs.Kind.{code_of, name_of};

/// What is wrong with a log.
#[derive(Clone, Copy, Debug, PartialEq, Eq)]
pub enum Kind {
    /// A line that may not stand at its place.
    BadLine,
    /// Every line is right, and the last one hasn't come.
    EndsEarly,
    /// The start and the arcs are no tree of the instance.
    NotTree,
    /// The tree has another cost.
    WrongCost,
    /// The bound is above the tree's cost.
    DualAbovePrimal,
    /// A step's condition fails.
    BadStep,
    /// A branch can't be split at this vertex.
    BadSplit,
    /// The packing doesn't fit its branch.
    BadPacking,
    /// The packing weighs less than the bound.
    TooLight,
    /// The wall has a vertex out of range, no required vertex inside or none outside, or is crossed.
    BadWall,
}

impl Kind {
    /// The kind's number, from 1 to 10.
    pub fn code(self) -> u8
        ensures { result ≡ code_of self }
    {
        match self {
            Kind::BadLine => 1,
            Kind::EndsEarly => 2,
            Kind::NotTree => 3,
            Kind::WrongCost => 4,
            Kind::DualAbovePrimal => 5,
            Kind::BadStep => 6,
            Kind::BadSplit => 7,
            Kind::BadPacking => 8,
            Kind::TooLight => 9,
            Kind::BadWall => 10,
        }
    }

    /// The kind's name, as it is printed.
    pub fn name(self) -> &'static str
        ensures { result.now ≡ name_of self }
    {
        match self {
            Kind::BadLine => "BadLine",
            Kind::EndsEarly => "EndsEarly",
            Kind::NotTree => "NotTree",
            Kind::WrongCost => "WrongCost",
            Kind::DualAbovePrimal => "DualAbovePrimal",
            Kind::BadStep => "BadStep",
            Kind::BadSplit => "BadSplit",
            Kind::BadPacking => "BadPacking",
            Kind::TooLight => "TooLight",
            Kind::BadWall => "BadWall",
        }
    }
}

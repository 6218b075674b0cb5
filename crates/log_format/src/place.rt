ghost use Rattle.std.specs.Prelude.{◌≡◌};
ghost use Rattle.log_format.specs.Places.{before_header};

/// What may stand on the next line, by counts alone.
#[derive(Clone, Copy)]
pub enum Place {
    BeforeHeader,
    BeforeClaim,
    BeforeTree,
    AmongArcs { left: u64 },
    AmongSteps { left: u64 },
    BeforeHalf { waiting: u64 },
    AmongCuts { left: u64, waiting: u64 },
    BeforeWall,
    BeforeEnd,
    AfterEnd,
}

impl Place {
    /// Whether no line was read.
    pub fn is_before_header(self) -> bool
        ensures { result ≡ before_header self }
    {
        matches!(self, Place::BeforeHeader)
    }
}

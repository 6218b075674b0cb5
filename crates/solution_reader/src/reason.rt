ghost use Rattle.std.specs.Prelude.{◌≡◌};
ghost use Rattle.solution_reader.specs.Reason.{code_of, name_of};

/// What is wrong with a line of a solution file.
#[derive(Clone, Copy, Debug, PartialEq, Eq)]
pub enum SolReason {
    /// The first line that isn't skipped is no header.
    NoHeader,
    /// A line of another form, in the wrong place, or a count that stands twice.
    BadLine,
    /// A second section Run or Finalsolution.
    RepeatedSection,
    /// A word that is no number of digits, or one above its limit.
    BadNumber,
    /// Not as many lines as stated.
    CountMismatch,
    /// A section without its end.
    Unclosed,
    /// No section Finalsolution.
    NoFinal,
}

impl SolReason {
    /// The reason's number, from 1 to 7. Where two hold of a line the lower one counts.
    pub fn code(self) -> u8
        ensures { result ≡ code_of self }
    {
        match self {
            SolReason::NoHeader => 1,
            SolReason::BadLine => 2,
            SolReason::RepeatedSection => 3,
            SolReason::BadNumber => 4,
            SolReason::CountMismatch => 5,
            SolReason::Unclosed => 6,
            SolReason::NoFinal => 7,
        }
    }

    /// The reason's name, as it is printed.
    pub fn name(self) -> &'static str
        ensures { result.now ≡ name_of self }
    {
        match self {
            SolReason::NoHeader => "NoHeader",
            SolReason::BadLine => "BadLine",
            SolReason::RepeatedSection => "RepeatedSection",
            SolReason::BadNumber => "BadNumber",
            SolReason::CountMismatch => "CountMismatch",
            SolReason::Unclosed => "Unclosed",
            SolReason::NoFinal => "NoFinal",
        }
    }
}

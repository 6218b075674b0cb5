ghost use Rattle.std.specs.Prelude.{◌≡◌};
ghost use Rattle.stp_reader.specs.Judged.{both};
ghost use Rattle.stp_reader.specs.Reason.{code_of, name_of, lesser};

/// What is wrong with a line of an STP file.
#[derive(Clone, Copy, Debug, PartialEq, Eq)]
pub enum Reason {
    /// The first line that isn't skipped is no header.
    NoHeader,
    /// A line of another form, or in the wrong place.
    BadLine,
    /// A section of another name.
    UnknownSection,
    /// A second section Graph or Terminals.
    RepeatedSection,
    /// The section Terminals before the section Graph.
    GraphFirst,
    /// A word that is no number.
    BadNumber,
    /// A cost or prize with a digit other than 0 past its sixth decimal.
    Fraction,
    /// A count, cost or prize above its limit.
    OutOfRange,
    /// A vertex that isn't one of 1 to n.
    VertexRange,
    /// Not as many lines as stated.
    CountMismatch,
    /// A second prize for one vertex.
    RepeatedPrize,
    /// A root that no line requires.
    RootNotTerminal,
    /// A line of arcs in a file of links, or of links in a directed file.
    Directed,
    /// A section without its end.
    Unclosed,
    /// No section Graph.
    NoGraph,
    /// No section Terminals, or none that names a vertex.
    NoTerminals,
    /// A graph of no vertices.
    NoVertices,
    /// An amount has decimals, and one is above a million.
    ScaleRange,
    /// A directed file without a line `Root`.
    NoRoot,
}

impl Reason {
    /// The reason's number, from 1 to 19. Of several reasons on a line the lowest counts.
    pub fn code(self) -> u8
        ensures { result ≡ code_of self }
    {
        match self {
            Reason::NoHeader => 1,
            Reason::BadLine => 2,
            Reason::UnknownSection => 3,
            Reason::RepeatedSection => 4,
            Reason::GraphFirst => 5,
            Reason::BadNumber => 6,
            Reason::Fraction => 7,
            Reason::OutOfRange => 8,
            Reason::VertexRange => 9,
            Reason::CountMismatch => 10,
            Reason::RepeatedPrize => 11,
            Reason::RootNotTerminal => 12,
            Reason::Directed => 13,
            Reason::Unclosed => 14,
            Reason::NoGraph => 15,
            Reason::NoTerminals => 16,
            Reason::NoVertices => 17,
            Reason::ScaleRange => 18,
            Reason::NoRoot => 19,
        }
    }

    /// The reason's name, as it is printed.
    pub fn name(self) -> &'static str
        ensures { result.now ≡ name_of self }
    {
        match self {
            Reason::NoHeader => "NoHeader",
            Reason::BadLine => "BadLine",
            Reason::UnknownSection => "UnknownSection",
            Reason::RepeatedSection => "RepeatedSection",
            Reason::GraphFirst => "GraphFirst",
            Reason::BadNumber => "BadNumber",
            Reason::Fraction => "Fraction",
            Reason::OutOfRange => "OutOfRange",
            Reason::VertexRange => "VertexRange",
            Reason::CountMismatch => "CountMismatch",
            Reason::RepeatedPrize => "RepeatedPrize",
            Reason::RootNotTerminal => "RootNotTerminal",
            Reason::Directed => "Directed",
            Reason::Unclosed => "Unclosed",
            Reason::NoGraph => "NoGraph",
            Reason::NoTerminals => "NoTerminals",
            Reason::NoVertices => "NoVertices",
            Reason::ScaleRange => "ScaleRange",
            Reason::NoRoot => "NoRoot",
        }
    }

    // Of two reasons the one that counts.
    fn lesser(self, other: Reason) -> Reason
        ensures { result ≡ lesser self other }
    {
        if self.code() <= other.code() {
            self
        } else {
            other
        }
    }
}

/// What two words say, or the reason that counts.
pub fn both<A: Copy, B: Copy>(a: Result<A, Reason>, b: Result<B, Reason>) -> Result<(A, B), Reason>
    ensures { result ≡ both a b }
{
    match (a, b) {
        (Ok(a), Ok(b)) => Ok((a, b)),
        (Err(r), Err(q)) => Err(r.lesser(q)),
        (Err(r), Ok(_)) => Err(r),
        (Ok(_), Err(q)) => Err(q),
    }
}

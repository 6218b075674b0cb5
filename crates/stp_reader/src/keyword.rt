ghost use Rattle.std.specs.Prelude.{◌≡◌};
ghost use Rattle.stp_reader.specs.Words.{is_word, keyword_of, is_passed_over, section_of};

/// What the first word of a line announces.
#[derive(Clone, Copy, Debug, PartialEq, Eq)]
pub enum Keyword {
    Section,
    Eof,
    End,
    Nodes,
    Edges,
    Edge,
    /// How many arcs there are, in the file of a directed graph.
    Arcs,
    /// One of these arcs.
    Arc,
    /// How many terminals there are.
    Count,
    Terminal,
    Prize,
    Root,
    /// A vertex that is required, also where a prize is stated for it.
    Pinned,
    Other,
}

/// What a section is to this reader.
#[derive(Clone, Copy, Debug, PartialEq, Eq)]
pub enum SectionName {
    Graph,
    Terminals,
    /// One whose lines are passed over.
    Passed,
    Unknown,
}

/// Whether the words are equal, or differ in capitals alone.
pub fn is_word(word: &[u8], wanted: &[u8]) -> bool
    ensures { result ≡ is_word word.now wanted.now }
{
    word.eq_ignore_ascii_case(wanted)
}

/// What this first word of a line announces.
#[tactic(auto, unfolding(crate::specs::Words::keyword_of))]
pub fn keyword_of(word: &[u8]) -> Keyword
    ensures { result ≡ keyword_of word.now }
{
    if is_word(word, b"E") {
        Keyword::Edge
    } else if is_word(word, b"T") {
        Keyword::Terminal
    } else if is_word(word, b"TP") {
        Keyword::Prize
    } else if is_word(word, b"END") {
        Keyword::End
    } else if is_word(word, b"EOF") {
        Keyword::Eof
    } else if is_word(word, b"SECTION") {
        Keyword::Section
    } else if is_word(word, b"Nodes") {
        Keyword::Nodes
    } else if is_word(word, b"Edges") {
        Keyword::Edges
    } else if is_word(word, b"Arcs") {
        Keyword::Arcs
    } else if is_word(word, b"A") {
        Keyword::Arc
    } else if is_word(word, b"Terminals") {
        Keyword::Count
    } else if is_word(word, b"Root") {
        Keyword::Root
    } else if is_word(word, b"RootP") {
        Keyword::Pinned
    } else {
        Keyword::Other
    }
}

// Whether the name is that of a section that is passed over.
fn is_passed_over(name: &[u8]) -> bool
    ensures { result ≡ is_passed_over name.now }
{
    is_word(name, b"Comment")
        || is_word(name, b"Comments")
        || is_word(name, b"Coordinates")
        || is_word(name, b"Tree")
}

/// Which section this name opens.
#[tactic(auto, unfolding(crate::specs::Words::section_of))]
pub fn section_of(name: &[u8]) -> SectionName
    ensures { result ≡ section_of name.now }
{
    if is_word(name, b"Graph") {
        SectionName::Graph
    } else if is_word(name, b"Terminals") {
        SectionName::Terminals
    } else if is_passed_over(name) {
        SectionName::Passed
    } else {
        SectionName::Unknown
    }
}

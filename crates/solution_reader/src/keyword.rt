ghost use Rattle.std.specs.Prelude.{◌≡◌};
ghost use Rattle.solution_reader.specs.Words.{keyword_of, section_of};

use stp_reader::is_word;

/// What the first word of a line announces.
#[derive(Clone, Copy, Debug, PartialEq, Eq)]
pub enum Keyword {
    Section,
    Eof,
    End,
    Primal,
    /// How many vertices there are.
    Count,
    Vertex,
    /// How many edges there are.
    EdgeCount,
    Edge,
    Other,
}

/// What a section is to this reader.
#[derive(Clone, Copy, Debug, PartialEq, Eq)]
pub enum SectionName {
    Run,
    Finalsolution,
    /// One whose lines are passed over.
    Passed,
}

/// What this first word of a line announces.
#[tactic(auto, unfolding(crate::specs::Words::keyword_of))]
pub fn keyword_of(word: &[u8]) -> Keyword
    ensures { result ≡ keyword_of word.now }
{
    if is_word(word, b"V") {
        Keyword::Vertex
    } else if is_word(word, b"E") {
        Keyword::Edge
    } else if is_word(word, b"END") {
        Keyword::End
    } else if is_word(word, b"EOF") {
        Keyword::Eof
    } else if is_word(word, b"SECTION") {
        Keyword::Section
    } else if is_word(word, b"Vertices") {
        Keyword::Count
    } else if is_word(word, b"Edges") {
        Keyword::EdgeCount
    } else if is_word(word, b"Primal") {
        Keyword::Primal
    } else {
        Keyword::Other
    }
}

/// Which section this name opens.
#[tactic(auto, unfolding(crate::specs::Words::section_of))]
pub fn section_of(name: &[u8]) -> SectionName
    ensures { result ≡ section_of name.now }
{
    if is_word(name, b"Run") {
        SectionName::Run
    } else if is_word(name, b"Finalsolution") {
        SectionName::Finalsolution
    } else {
        SectionName::Passed
    }
}

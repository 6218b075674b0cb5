ghost use Rattle.std.specs.Prelude.{◌≡◌};
ghost use Rattle.stp_reader.specs.Lines.{words};
ghost use Rattle.stp_reader.specs.Words.{keyword_of};
ghost use Rattle.stp_reader.specs.Forms.{form_of};
ghost use Rattle.stp_reader.specs.Reached.{form_seen};

use crate::keyword::{Keyword, keyword_of};
use crate::words::{no_word, one_word, three_words, two_words};

/// What a line is by its words alone, wherever it stands.
#[derive(Clone, Copy)]
pub enum Form<'a> {
    Section(&'a [u8]),
    /// `SECTION` with no word after it, or more than one.
    Nameless,
    Eof,
    End,
    Nodes(&'a [u8]),
    Edges(&'a [u8]),
    Edge(&'a [u8], &'a [u8], &'a [u8]),
    /// `Edges` or `E` with another number of words.
    BadEdges,
    Arcs(&'a [u8]),
    Arc(&'a [u8], &'a [u8], &'a [u8]),
    /// `Arcs` with another number of words.
    BadArcs,
    /// `A` with another number of words.
    BadArc,
    Count(&'a [u8]),
    Terminal(&'a [u8]),
    Prize(&'a [u8], &'a [u8]),
    Root(&'a [u8]),
    Pinned(&'a [u8]),
    Other,
}

/// The form of a line with this first word.
#[tactic(auto, unfolding(crate::specs::Forms::form_of))]
pub fn form_of<'a>(word: &[u8], args: &'a [u8]) -> Form<'a>
    ensures { form_seen result ≡ form_of (keyword_of word.now) (words args.now) }
{
    match keyword_of(word) {
        Keyword::Section => match one_word(args) {
            Some(name) => Form::Section(name),
            None => Form::Nameless,
        },
        Keyword::Eof => {
            if no_word(args) {
                Form::Eof
            } else {
                Form::Other
            }
        }
        Keyword::End => {
            if no_word(args) {
                Form::End
            } else {
                Form::Other
            }
        }
        Keyword::Nodes => match one_word(args) {
            Some(count) => Form::Nodes(count),
            None => Form::Other,
        },
        Keyword::Edges => match one_word(args) {
            Some(count) => Form::Edges(count),
            None => Form::BadEdges,
        },
        Keyword::Edge => match three_words(args) {
            Some((first, second, cost)) => Form::Edge(first, second, cost),
            None => Form::BadEdges,
        },
        Keyword::Arcs => match one_word(args) {
            Some(count) => Form::Arcs(count),
            None => Form::BadArcs,
        },
        Keyword::Arc => match three_words(args) {
            Some((tail, head, cost)) => Form::Arc(tail, head, cost),
            None => Form::BadArc,
        },
        Keyword::Count => match one_word(args) {
            Some(count) => Form::Count(count),
            None => Form::Other,
        },
        Keyword::Terminal => match one_word(args) {
            Some(vertex) => Form::Terminal(vertex),
            None => Form::Other,
        },
        Keyword::Prize => match two_words(args) {
            Some((vertex, prize)) => Form::Prize(vertex, prize),
            None => Form::Other,
        },
        Keyword::Root => match one_word(args) {
            Some(vertex) => Form::Root(vertex),
            None => Form::Other,
        },
        Keyword::Pinned => match one_word(args) {
            Some(vertex) => Form::Pinned(vertex),
            None => Form::Other,
        },
        Keyword::Other => Form::Other,
    }
}

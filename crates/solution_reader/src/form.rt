ghost use Rattle.std.specs.Prelude.{◌≡◌};
ghost use Rattle.stp_reader.specs.Lines.{words};
ghost use Rattle.solution_reader.specs.Words.{keyword_of};
ghost use Rattle.solution_reader.specs.Forms.{form_of};
ghost use Rattle.solution_reader.specs.Seen.{form_seen};

use crate::keyword::{Keyword, keyword_of};
use stp_reader::{no_word, one_word, two_words};

/// What a line is by its words alone, wherever it stands.
#[derive(Clone, Copy)]
pub enum Form<'a> {
    Section(&'a [u8]),
    /// `SECTION` with no word after it, or more than one.
    Nameless,
    Eof,
    End,
    Primal(&'a [u8]),
    Count(&'a [u8]),
    Vertex(&'a [u8]),
    EdgeCount(&'a [u8]),
    Edge(&'a [u8], &'a [u8]),
    Other,
}

/// The form of a line with this first word.
#[tactic(auto, unfolding(crate::specs::Forms::form_of))]
pub fn form_of<'a>(word: &[u8], args: &'a [u8]) -> Form<'a>
    ensures { form_seen result ≡ form_of (keyword_of word.now) (words args.now) }
{
    match keyword_of(word) {
        Keyword::Section => match one_word(args) {
            Some(name) => Form::Section(name),
            None => Form::Nameless,
        },
        Keyword::Eof => {
            if no_word(args) {
                Form::Eof
            } else {
                Form::Other
            }
        }
        Keyword::End => {
            if no_word(args) {
                Form::End
            } else {
                Form::Other
            }
        }
        Keyword::Primal => match one_word(args) {
            Some(amount) => Form::Primal(amount),
            None => Form::Other,
        },
        Keyword::Count => match one_word(args) {
            Some(count) => Form::Count(count),
            None => Form::Other,
        },
        Keyword::Vertex => match one_word(args) {
            Some(vertex) => Form::Vertex(vertex),
            None => Form::Other,
        },
        Keyword::EdgeCount => match one_word(args) {
            Some(count) => Form::EdgeCount(count),
            None => Form::Other,
        },
        Keyword::Edge => match two_words(args) {
            Some((first, second)) => Form::Edge(first, second),
            None => Form::Other,
        },
        Keyword::Other => Form::Other,
    }
}

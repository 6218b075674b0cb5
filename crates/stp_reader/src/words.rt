ghost use Rattle.std.specs.Prelude.{◌≡◌, ◌<◌, [], ◌∷◌, length, not, MatchOption, IfSome, option_map, position};
ghost use Rattle.std.specs.List.{list_any};
ghost use Rattle.stp_reader.specs.Lines.{is_blank, words, is_remark};
ghost use Rattle.stp_reader.specs.Words.{is_magic};
ghost use Rattle.stp_reader.specs.Forms.{none, one, two, three};

use crate::keyword::is_word;

// Whether a byte stands between words.
fn is_blank(byte: u8) -> bool
    ensures { result ≡ is_blank byte }
{
    byte == b' ' || byte == b'\t'
}

// The index of the first byte that isn't blank.
fn word_start(bytes: &[u8]) -> Option<usize>
    ensures { result ≡ position (λ b. not (is_blank b)) bytes.now }
{
    bytes.iter().position(|byte| !is_blank(*byte))
}

// The index of the first blank byte.
fn blank_index(bytes: &[u8]) -> Option<usize>
    ensures { result ≡ position (λ b. is_blank b) bytes.now }
{
    bytes.iter().position(|byte| is_blank(*byte))
}

/// The first word of a line, and what stands after it.
pub fn next_word(line: &[u8]) -> Option<(&[u8], &[u8])>
    ensures word { MatchOption result (words line.now ≡ [])
        (λ x. words line.now ≡ x.0.now ∷ words x.1.now) }
    ensures shorter { IfSome result (λ x. length x.1.now < length line.now) }
{
    let start = word_start(line)?;
    let rest = &line[start..];
    let end = blank_index(rest).unwrap_or(rest.len());
    Some(rest.split_at(end))
}

/// Whether no word stands there.
pub fn no_word(args: &[u8]) -> bool
    ensures { result ≡ none (words args.now) }
{
    next_word(args).is_none()
}

/// The one word that stands there, if it is one.
pub fn one_word(args: &[u8]) -> Option<&[u8]>
    ensures { option_map (λ u. u.now) result ≡ one (words args.now) }
{
    let (first, rest) = next_word(args)?;
    if !no_word(rest) {
        return None;
    }
    Some(first)
}

/// The two words that stand there, if there are two.
pub fn two_words(args: &[u8]) -> Option<(&[u8], &[u8])>
    ensures { option_map (λ w. (w.0.now, w.1.now)) result ≡ two (words args.now) }
{
    let (first, rest) = next_word(args)?;
    let second = one_word(rest)?;
    Some((first, second))
}

/// The three words that stand there, if there are three.
pub fn three_words(args: &[u8]) -> Option<(&[u8], &[u8], &[u8])>
    ensures { option_map (λ w. (w.0.now, w.1.now, w.2.now)) result ≡ three (words args.now) }
{
    let (first, rest) = next_word(args)?;
    let (second, third) = two_words(rest)?;
    Some((first, second, third))
}

/// Whether a word begins with #.
pub fn is_remark(word: &[u8]) -> bool
    ensures { result ≡ is_remark word.now }
{
    matches!(word, [b'#', ..])
}

/// Whether one of the words of a line marks a header.
pub fn has_magic(line: &[u8]) -> bool
    ensures { result ≡ list_any is_magic (words line.now) }
{
    let mut rest = line;
    while let Some((word, after)) = next_word(rest) {
        if is_word(word, b"33D32945") {
            return true;
        }
        rest = after;
    }
    false
}

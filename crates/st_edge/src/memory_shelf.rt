ghost use Rattle.std.specs.Prelude.{◌≡◌, ◌≢◌, ◌⊎◌, ◌<◌, ◌≤◌, ◌++◌, ◌↔◌, [], ◌∷◌, Some, None, Err, length, map, option_map, position, string_bytes, IfOk, IfSome, OnOk, OnErr, IsErrOf, IsSomeAnd, option_copied};
ghost use Rattle.std.specs.Str.{bytes_eq};
ghost use Rattle.st_edge.specs.Faults.{one_more, HasCause};
ghost use Rattle.st_edge.specs.MemoryShelf.{texts_of, names_of, text_at, IsListed};
ghost use Rattle.st_edge.specs.Shelf.{AsksFor, Loads, SameTexts, SameOtherTexts};

use crate::{LoadFault, SaveFault, Shelf};
use std::alloc::{AllocError, Global};
use std::marker::Model;

/// Texts in memory, and calls that fail.
#[derive(Debug, Drop)]
pub struct MemoryShelf {
    alloc: Global,
    texts: Vec<(String, Vec<u8>)>,
    failing: Vec<u64>,
    calls: u64,
    asked: Option<Vec<String>>,
    read_faults: u64,
    write_faults: u64,
}

impl Model for MemoryShelf {
    ghost use Rattle.st_edge.specs.MemoryShelf.{Holding, names_of, texts_of};

    ghost Value = { Holding };

    ghost view = { λ s. record {
      texts = texts_of s.texts.items;
      failing = s.failing.items;
      calls = s.calls;
      asked = names_of s.asked;
      read_faults = s.read_faults;
      write_faults = s.write_faults;
    } };
}

impl MemoryShelf {
    /// A shelf with these texts, the first of each name. The calls fail whose numbers, from 1, are listed in `failing`:
    /// loads and saves are counted together.
    pub fn of(alloc: Global, texts: Vec<(String, Vec<u8>)>, failing: Vec<u64>) -> Self
        ensures { result ≡ record {
          texts = texts_of texts.items;
          failing = failing.items;
          calls = 0;
          asked = Some [];
          read_faults = 0;
          write_faults = 0;
        } }
    {
        MemoryShelf {
            alloc,
            texts,
            failing,
            calls: 0,
            asked: Some(Vec::new(alloc)),
            read_faults: 0,
            write_faults: 0,
        }
    }

    /// The text under a name. It counts as no call.
    pub fn text_of(&self, name: &str) -> Option<&[u8]>
        ensures { option_copied result ≡ text_at self.now.texts name.now }
    {
        find_text(&self.texts, name)
    }

    /// The names of all loads so far, in their order, unless memory ran out for them.
    pub fn asked(&self) -> Option<&[String]>
        ensures { option_map (λ names. map string_bytes names.now) result ≡ self.now.asked }
    {
        let names = self.asked.as_ref()?;
        Some(names.as_slice())
    }
}

impl Shelf for MemoryShelf {
    ghost text = { λ s name. text_at s.texts name };

    ghost asked = { λ s. s.asked };

    ghost read_faults = { λ s. s.read_faults };

    ghost write_faults = { λ s. s.write_faults };

    fn load(&mut self, alloc: Global, name: &str, limit: u64) -> Result<Vec<u8>, LoadFault>
        ensures failed { IsErrOf result LoadFault.Failed
            ↔ (IsListed self.old ⊎ (text_at self.old.texts name.now ≡ None)) }
        ensures found { IfOk result (λ bytes. text_at self.old.texts name.now ≡ Some bytes.items) }
        ensures longer { IsErrOf result LoadFault.TooLong
            → IsSomeAnd (text_at self.old.texts name.now) (λ text. limit < length text) }
        ensures no_memory { IsErrOf result LoadFault.NoMemory
            → IsSomeAnd (text_at self.old.texts name.now) (λ text. length text ≤ limit) }
        ensures counted { IsErrOf result LoadFault.Failed → self.new ≡ record self.old {
          calls = one_more self.old.calls;
          asked = self.new.asked;
          read_faults = one_more self.old.read_faults;
        } }
        ensures kept { result ≢ Err LoadFault.Failed → self.new ≡ record self.old {
          calls = one_more self.old.calls;
          asked = self.new.asked;
        } }

        // As of every shelf.
        ensures answer { Loads (text_at self.old.texts name.now) limit result }
        ensures asked { AsksFor self.old.asked self.new.asked (name.now ∷ []) }
        ensures texts { SameTexts (text_at self.old.texts) (text_at self.new.texts) }
        ensures cause { HasCause self.old.read_faults self.new.read_faults (IsErrOf result LoadFault.Failed) }
        ensures write_faults { self.new.write_faults ≡ self.old.write_faults }
    {
        self.calls = self.calls.saturating_add(1);
        note(self.alloc, &mut self.asked, name);
        if !self.failing.contains(&self.calls)
            && let Some(text) = find_text(&self.texts, name)
        {
            return copy_of(alloc, text, limit);
        }
        self.read_faults = self.read_faults.saturating_add(1);
        Err(LoadFault::Failed)
    }

    fn save(&mut self, name: &str, bytes: &[u8]) -> Result<(), SaveFault>
        ensures failed { IsErrOf result SaveFault.Failed ↔ IsListed self.old }
        ensures ok { OnOk result (text_at self.new.texts name.now ≡ Some bytes.now) }
        ensures err { OnErr result (self.new.texts ≡ self.old.texts) }
        ensures counted { IsErrOf result SaveFault.Failed → self.new ≡ record self.old {
          calls = one_more self.old.calls;
          write_faults = one_more self.old.write_faults;
        } }
        ensures kept { result ≢ Err SaveFault.Failed → self.new ≡ record self.old {
          texts = self.new.texts;
          calls = one_more self.old.calls;
        } }

        // As of every shelf.
        ensures saved { OnOk result (IfSome (text_at self.new.texts name.now) (λ text. text ≡ bytes.now)) }
        ensures others { SameOtherTexts name.now (text_at self.old.texts) (text_at self.new.texts) }
        ensures asked { self.new.asked ≡ self.old.asked }
        ensures no_memory { IsErrOf result SaveFault.NoMemory
            → SameTexts (text_at self.old.texts) (text_at self.new.texts) }
        ensures cause { HasCause self.old.write_faults self.new.write_faults (IsErrOf result SaveFault.Failed) }
        ensures read_faults { self.new.read_faults ≡ self.old.read_faults }
    {
        self.calls = self.calls.saturating_add(1);
        if self.failing.contains(&self.calls) {
            self.write_faults = self.write_faults.saturating_add(1);
            return Err(SaveFault::Failed);
        }
        put(self.alloc, &mut self.texts, name, bytes)?;
        Ok(())
    }
}

// Puts a name after those that were asked for. Where memory runs out, none of them is kept.
fn note(alloc: Global, asked: &mut Option<Vec<String>>, name: &str)
    ensures { AsksFor (names_of asked.old) (names_of asked.new) (name.now ∷ []) }
{
    let Some(mut names) = asked.take() else {
        return;
    };
    if push_name(alloc, &mut names, name).is_ok() {
        *asked = Some(names);
    }
}

fn push_name(alloc: Global, names: &mut Vec<String>, name: &str) -> Result<(), AllocError>
    ensures { OnOk result (map string_bytes names.new.items ≡ map string_bytes names.old.items ++ name.now ∷ []) }
{
    names.push(String::from_str(alloc, name)?)?;
    Ok(())
}

// Where the text under a name stands.
fn place_of(texts: &[(String, Vec<u8>)], name: &str) -> Option<usize>
    ensures { result ≡ position (λ text. bytes_eq (string_bytes text.0) name.now) texts.now }
{
    texts.iter().position(|text| text.0.as_str() == name)
}

// The text under a name.
fn find_text<'a>(texts: &'a [(String, Vec<u8>)], name: &str) -> Option<&'a [u8]>
    ensures { option_copied result ≡ text_at (texts_of texts.now) name.now }
{
    let place = place_of(texts, name)?;
    Some(&texts[place].1)
}

// A copy of a text within the limit.
fn copy_of(alloc: Global, text: &[u8], limit: u64) -> Result<Vec<u8>, LoadFault>
    ensures copy { IfOk result (λ copy. copy.items ≡ text.now) }
    ensures too_long { IsErrOf result LoadFault.TooLong ↔ (limit < length text.now) }
    ensures never_failed { result ≢ Err LoadFault.Failed }
{
    if text.len() as u64 > limit {
        return Err(LoadFault::TooLong);
    }
    Ok(Vec::from_slice(alloc, text)?)
}

// Puts bytes under a name, in place of its text.
fn put(
    alloc: Global,
    texts: &mut Vec<(String, Vec<u8>)>,
    name: &str,
    bytes: &[u8],
) -> Result<(), AllocError>
    ensures ok { OnOk result (text_at (texts_of texts.new.items) name.now ≡ Some bytes.now) }
    ensures others { SameOtherTexts name.now (text_at (texts_of texts.old.items)) (text_at (texts_of texts.new.items)) }
    ensures err { OnErr result (texts.new.items ≡ texts.old.items) }
{
    let copy = Vec::from_slice(alloc, bytes)?;
    match place_of(texts, name) {
        Some(place) => texts[place].1 = copy,
        None => texts.push((String::from_str(alloc, name)?, copy))?,
    }
    Ok(())
}

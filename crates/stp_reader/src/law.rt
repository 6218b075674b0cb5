ghost use Rattle.std.specs.Prelude.{ℕ, List};
ghost use Rattle.stp_reader.specs.Laws.{RefusedExactly, FileRefusedExactly, ReadsAlike};

/// Bytes are the text of one instance, or are refused at one line for one reason.
pub fn refused_exactly()
    ensures { (bytes : List ℕ) → RefusedExactly bytes }
{}

/// Bytes are the text of one instance of either kind, or are refused at one line for one reason.
pub fn file_refused_exactly()
    ensures { (bytes : List ℕ) → FileRefusedExactly bytes }
{}

/// A file that isn't directed is read, or refused, alike by both readers.
pub fn reads_alike()
    ensures { (bytes : List ℕ) → ReadsAlike bytes }
{}

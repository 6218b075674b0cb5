ghost use Rattle.std.specs.Prelude.{◌≡◌, ℕ, ◌<◌, ◌||◌, false, length, All, slice_index_or, if◌then◌else◌};
ghost use Rattle.st_model.specs.Lists.{has};

// Marks the vertices of a set.
pub fn mark(marks: &mut Vec<bool>, set: &[u32])
    requires { All (λ v. v < length marks.old.items) set.now }
    ensures length { length marks.new.items ≡ length marks.old.items }
    ensures marks { (v : ℕ) → slice_index_or marks.new.items v false
        ≡ (has set.now v || slice_index_or marks.old.items v false) }
{
    for vertex in set {
        marks[*vertex as usize] = true;
    }
}

// Takes the marks of the vertices of a set away.
pub fn unmark(marks: &mut Vec<bool>, set: &[u32])
    requires { All (λ v. v < length marks.old.items) set.now }
    ensures length { length marks.new.items ≡ length marks.old.items }
    ensures marks { (v : ℕ) → slice_index_or marks.new.items v false
        ≡ (if has set.now v then false else slice_index_or marks.old.items v false) }
{
    for vertex in set {
        marks[*vertex as usize] = false;
    }
}

ghost use Rattle.std.specs.Prelude.{◌≡◌, ℕ, ◌<◌, ◌+◌, ◌-◌, ◌∷◌, [], ◌++◌, ◌==◌, nat_lt, None, OnOk, OnErr, vec_len, IfOk, length, take, slice_get, if◌then◌else◌};
ghost use Rattle.std.specs.Option.{option_map};
ghost use Rattle.graph_store.specs.Joined.{halves_at, with_cost};

use crate::Half;
use std::alloc::{AllocError, Global};

// An empty list for each vertex from 0 to `last`.
pub fn no_halves(alloc: Global, last: u32) -> Result<Vec<Vec<Half>>, AllocError>
    ensures length { IfOk result (λ lists. vec_len lists ≡ last + 1) }
    ensures empty { IfOk result (λ lists. (v : ℕ) → halves_at lists.items v ≡ []) }
{
    let mut lists = Vec::new(alloc);
    for _ in 0..=last {
        lists.push(Vec::new(alloc))?;
    }
    Ok(lists)
}

// Puts a half at the end of a vertex's list.
pub fn push_half(lists: &mut Vec<Vec<Half>>, at: u32, half: Half) -> Result<(), AllocError>
    requires { at < vec_len lists.old }
    ensures length { vec_len lists.new ≡ vec_len lists.old }
    ensures ok { OnOk result ((v : ℕ) → halves_at lists.new.items v
        ≡ (if v == at then halves_at lists.old.items at ++ half ∷ [] else halves_at lists.old.items v)) }
    ensures err { OnErr result ((v : ℕ) → halves_at lists.new.items v ≡ halves_at lists.old.items v) }
{
    lists[at as usize].push(half)?;
    Ok(())
}

// Takes the last half off a vertex's list.
pub fn pop_half(lists: &mut Vec<Vec<Half>>, at: u32)
    requires { at < vec_len lists.old }
    ensures length { vec_len lists.new ≡ vec_len lists.old }
    ensures popped { (v : ℕ) → halves_at lists.new.items v
        ≡ (if v == at then take (length (halves_at lists.old.items at) - 1) (halves_at lists.old.items at)
        else halves_at lists.old.items v) }
{
    lists[at as usize].pop();
}

// Takes out the half at a place of a vertex's list; the last one moves there, and is returned.
pub fn take_half(lists: &mut Vec<Vec<Half>>, at: u32, place: usize) -> Option<Half>
    requires at { at < vec_len lists.old }
    requires place { place < length (halves_at lists.old.items at) }
    ensures length { vec_len lists.new ≡ vec_len lists.old }
    ensures moved { result ≡ slice_get (halves_at lists.new.items at) place }
    ensures here { (k : ℕ) → slice_get (halves_at lists.new.items at) k
        ≡ (let old = halves_at lists.old.items at in
        if nat_lt (k + 1) (length old)
        then (if k == place then slice_get old (length old - 1) else slice_get old k)
        else None) }
    ensures others { (v : ℕ) → (v ≡ at → ⊥) → halves_at lists.new.items v ≡ halves_at lists.old.items v }
{
    let list = &mut lists[at as usize];
    list.swap_remove(place);
    list.get(place).copied()
}

// Says that the half at a place of a vertex's list has this cost now.
pub fn put_half_cost(lists: &mut Vec<Vec<Half>>, at: u32, place: usize, cost: u64)
    requires at { at < vec_len lists.old }
    requires place { place < length (halves_at lists.old.items at) }
    ensures length { vec_len lists.new ≡ vec_len lists.old }
    ensures here { (k : ℕ) → slice_get (halves_at lists.new.items at) k
        ≡ (let old = slice_get (halves_at lists.old.items at) k in
        if k == place then option_map (with_cost cost) old else old) }
    ensures others { (v : ℕ) → (v ≡ at → ⊥) → halves_at lists.new.items v ≡ halves_at lists.old.items v }
{
    lists[at as usize][place].cost = cost;
}

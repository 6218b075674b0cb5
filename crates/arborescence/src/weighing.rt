ghost use Rattle.std.specs.Prelude.{◌≡◌, ◌*◌, ◌^◌, ◌≤◌, [], length};
ghost use Rattle.st_model.specs.Lists.{total};
ghost use Rattle.cut_packing.specs.Packing.{weight_in};
ghost use Rattle.arborescence.specs.DiNetwork.{di_ground};

use crate::DiInstance;
use cut_packing::{Cut, Packing};
use st_model::Branch;

/// What a packing weighs in a branch in which no link is a must: the values of all its cuts, since nobody
/// pays. Takes time linear in their number, and no memory.
pub fn di_weight(_instance: &DiInstance, _branch: &Branch, packing: &Packing) -> u128
    requires { _branch.now.must ≡ [] }
    ensures { result ≡ weight_in (di_ground _instance.now) _branch.now packing.now }
{
    values(packing.cuts.as_slice())
}

// The values of some cuts: each less than 2^64.
pub fn values(cuts: &[Cut]) -> u128
    ensures sum { result ≡ total (λ c. c.y) cuts.now }
    ensures bound { result ≤ length cuts.now * 2 ^ 64 }
{
    let mut sum = 0;
    for cut in cuts {
        sum += u128::from(cut.y);
    }
    sum
}

ghost use Rattle.std.specs.Prelude.{◌≡◌, ◌*◌, ◌<◌, ◌≤◌, ◌^◌, length, All};
ghost use Rattle.st_model.specs.Lists.{total};

use cut_packing::Cut;

// What some cuts are worth, each less than 2^64.
pub fn worth(cuts: &[Cut]) -> u128
    ensures sum { result ≡ total (λ c. c.y) cuts.now }
    ensures small { All (λ c. c.y < 2 ^ 64) cuts.now }
    ensures few { length cuts.now < 2 ^ 64 }
{
    let mut sum = 0;
    for cut in cuts {
        sum += u128::from(cut.y);
    }
    prove!(cuts.len() <= usize::MAX);
    sum
}

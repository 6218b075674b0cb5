ghost use Rattle.std.specs.Prelude.{◌≡◌, ◌*◌, ◌%◌, ◌<◌, ◌≤◌};
ghost use Rattle.instance_gen.specs.Generated.{next};

/// Numbers that look random, the same for each seed: each is the one before it times 48271, modulo the prime 2^31 - 1
/// (Park and Miller, revised 1993).
#[derive(Drop)]
pub struct Draws {
    /// The number that was drawn last, at first the seed.
    pub last: u64,
    ghost small: { last < 2147483647 },
}

impl Draws {
    /// The draws of a seed. Of the seed 0 each number is 0.
    pub fn of(seed: u32) -> Self
        requires { seed ≤ 2147483646 }
        ensures { result.last ≡ seed }
    {
        Draws {
            last: u64::from(seed),
        }
    }

    /// Draws the next number, and answers its remainder by k: a number from 0 to k - 1.
    #[tactic(auto, unfolding(crate::specs::Generated::next))]
    pub fn below(&mut self, k: u32) -> u32
        requires { 1 ≤ k }
        ensures last { self.new.last ≡ next self.old.last }
        ensures value { result ≡ next self.old.last % k }
        ensures below { result < k }
    {
        self.last = self.last * 48271 % 2147483647;
        (self.last % u64::from(k)) as u32
    }
}

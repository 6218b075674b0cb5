ghost use Rattle.std.specs.Prelude.{◌≡◌, ◌≤◌, ◌<◌, IfOk};
ghost use Rattle.st_model.specs.Network.{IsVertex, prize};

use st_model::{Instance, Link, Need};
use std::alloc::{AllocError, Global};

/// Numbers that look random: a linear congruence modulo 2^64, its high bits.
#[derive(Drop)]
pub struct Draws {
    /// What the next number comes from; any number will do at first.
    pub state: u64,
}

impl Draws {
    /// A number below a limit.
    pub fn below(&mut self, limit: u64) -> u64
        requires { 0 < limit }
        ensures { result < limit }
    {
        self.state = self
            .state
            .wrapping_mul(6_364_136_223_846_793_005)
            .wrapping_add(1_442_695_040_888_963_407);
        (self.state >> 33) % limit
    }

    /// A number from 0 to 9.
    pub fn below_ten(&mut self) -> u64
        ensures { result ≤ 9 }
    {
        self.below(10)
    }

    /// One of the vertices 1 to 6.
    pub fn vertex(&mut self) -> u32
        ensures { IsVertex 6 result }
    {
        self.below(6) as u32 + 1
    }

    /// A link of cost 0 to 9; one in five has equal ends, so it joins nothing.
    pub fn link(&mut self, a: u32, b: u32) -> Link
        requires a { IsVertex 6 a }
        requires b { IsVertex 6 b }
        ensures ends { IsVertex 6 result.a × IsVertex 6 result.b }
        ensures cost { result.cost ≤ 9 }
    {
        let b = if self.below_ten() < 2 { a } else { b };
        Link {
            a,
            b,
            cost: self.below_ten(),
        }
    }

    /// Required in three of ten cases, else a prize of 0 to 9.
    pub fn need(&mut self) -> Need
        ensures { prize result ≤ 9 }
    {
        if self.below_ten() < 3 {
            Need::Required
        } else {
            Need::Pays(self.below_ten())
        }
    }

    /// An instance of six vertices with up to ten links.
    pub fn instance(&mut self, alloc: Global) -> Result<Instance, AllocError>
        ensures { IfOk result (λ instance. instance.n ≡ 6) }
    {
        let links = [
            self.link(1, 2),
            self.link(1, 3),
            self.link(1, 4),
            self.link(2, 3),
            self.link(2, 5),
            self.link(3, 4),
            self.link(3, 6),
            self.link(4, 5),
            self.link(4, 6),
            self.link(5, 6),
        ];
        let needs = [
            (1, self.need()),
            (2, self.need()),
            (3, self.need()),
            (4, self.need()),
            (5, self.need()),
            (6, self.need()),
        ];
        Instance::build(alloc, 6, &links, &needs)
    }
}

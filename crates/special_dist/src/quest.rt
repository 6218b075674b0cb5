ghost use Rattle.std.specs.Prelude.{◌≡◌, ◌+◌, ◌≤◌, ◌↔◌, IsTrue, IsFalse};
ghost use Rattle.st_model.specs.Made.{is_between};

use graph_store::Half;

// The link that a walk is to stand in for, and what it costs.
#[derive(Clone, Copy, Debug)]
pub struct Quest {
    pub a: u32,
    pub b: u32,
    pub limit: u64,
}

impl Quest {
    // Whether the link joins these two, in either order.
    pub fn joins(self, from: u32, to: u32) -> bool
        ensures { result ≡ is_between (self.a, self.b) from to }
    {
        (self.a == from && self.b == to) || (self.a == to && self.b == from)
    }

    // Whether a walk that stands in for the link may go on from a visit over a half: it isn't that
    // link, and the walk's last piece stays within what the link costs.
    pub fn lets_go(self, visit: Visit, half: Half) -> bool
        requires { visit.paid ≤ self.limit }
        ensures { IsTrue result ↔ (IsFalse (is_between (self.a, self.b) visit.vertex half.to) ×
            (visit.paid + half.cost ≤ self.limit)) }
    {
        !self.joins(visit.vertex, half.to) && half.cost <= self.limit - visit.paid
    }
}

// A vertex that a walk reached.
#[derive(Clone, Copy, Debug)]
pub struct Visit {
    pub vertex: u32,
    // What it cost since the last required vertex, and nothing where this one is required.
    pub paid: u64,
    // The place of the visit that it comes from; its own at the first one.
    pub before: usize,
}

ghost use Rattle.std.specs.Prelude.{◌≡◌, ℕ, ◌+◌, ◌<◌, ◌^◌, ◌&&◌, ◌==◌, OnOk, if◌then◌else◌};
ghost use Rattle.flow_cuts.specs.Sending.{sent};

use std::alloc::{AllocError, Global};
use std::collections::HashMap;

// How many units were sent along each arc.
#[derive(Drop)]
pub struct Flow {
    // Those that carry any.
    units: HashMap<(u32, u32), u64>,
}

impl Flow {
    pub fn none(alloc: Global) -> Flow
        ensures { (u v : ℕ) → sent result u v ≡ 0 }
    {
        Flow {
            units: HashMap::new(alloc),
        }
    }

    pub fn at(&self, tail: u32, head: u32) -> u64
        ensures { result ≡ sent self.now tail head }
    {
        self.units.get(&(tail, head)).copied().unwrap_or(0)
    }

    // One unit more along an arc.
    pub fn send(&mut self, tail: u32, head: u32) -> Result<(), AllocError>
        requires { sent self.old tail head + 1 < 2 ^ 64 }
        ensures { OnOk result ((u v : ℕ) → sent self.new u v
            ≡ (if (tail == u) && (head == v) then sent self.old u v + 1 else sent self.old u v)) }
    {
        let units = self.at(tail, head) + 1;
        self.units.insert((tail, head), units)?;
        Ok(())
    }
}

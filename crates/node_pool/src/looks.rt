// How often a queue answered an end that it held nothing. The count exists only in proofs, and takes
// no memory: no word of the queue tells what an end knew when it found nothing.
ghost use Rattle.std.specs.Prelude.{◌≡◌, ◌+◌, ℕ};
ghost use Rattle.std.specs.Borrow.{ftrue};

use std::marker::Model;

#[derive(Drop)]
pub struct Looks {
    ghost count: { ℕ },
}

impl Model for Looks {
    ghost also_owns = { λ _. ftrue };
}

// It owns nothing.
unsafe impl Send for Looks {}

impl Looks {
    // No look yet.
    pub fn new() -> Looks
        ensures { result.count ≡ 0 }
    {
        Looks {}
    }

    // One look more. Only an end that its queue answered so calls this.
    pub fn rise(&mut self)
        ensures { self.new.count ≡ self.old.count + 1 }
    {}
}

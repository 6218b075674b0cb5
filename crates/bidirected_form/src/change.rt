ghost use Rattle.std.specs.Prelude.{◌≡◌};
ghost use Rattle.bidirected_form.specs.Rows.{after, Allows};

// How what remains of an arc changes.
#[derive(Clone, Copy)]
pub enum Change {
    // So much is taken.
    Take(u64),
    // So much is given back.
    Give(u64),
}

impl Change {
    // What remains after the change.
    pub fn applied(self, remaining: u64) -> u64
        requires { Allows self remaining }
        ensures { result ≡ after self remaining }
    {
        match self {
            Change::Take(y) => remaining - y,
            Change::Give(y) => remaining + y,
        }
    }
}

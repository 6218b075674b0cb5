ghost use Rattle.std.specs.Prelude.{◌≡◌, None, string_bytes};

use crate::{Outcome, Status};

/// What a run has to send, and how it then ends.
#[derive(Debug, Drop)]
pub struct Answer {
    pub status: Status,
    pub outcome: Option<Outcome>,
    pub text: Vec<u8>,
}

impl Answer {
    // One line, with no outcome.
    pub fn of_line(status: Status, line: String) -> Answer
        ensures status { result.status ≡ status }
        ensures outcome { result.outcome ≡ None }
        ensures text { result.text.items ≡ string_bytes line }
    {
        Answer {
            status,
            outcome: None,
            text: line.into_bytes(),
        }
    }
}

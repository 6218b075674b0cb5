ghost use Rattle.std.specs.Prelude.{◌≡◌};
ghost use Rattle.log_format.specs.Reading.{link_of, split_of};

use crate::Version;
use crate::line::{MAX_VERTEX, number_of, pair_of};
use st_model::SplitAt;

// The split at a link that a line says.
#[tactic(auto, unfolding(crate::specs::Reading::link_of))]
fn link_of(line: &[u8]) -> Option<SplitAt>
    ensures { result ≡ link_of line.now }
{
    let (a, b) = pair_of(line, b"L", 1, MAX_VERTEX, 1, MAX_VERTEX)?;
    if a >= b {
        return None;
    }
    Some(SplitAt::Link(a as u32, b as u32))
}

/// The split that a line of a log of this version says.
#[tactic(auto, unfolding(crate::specs::Reading::split_of))]
pub fn split_of(version: Version, line: &[u8]) -> Option<SplitAt>
    ensures { result ≡ split_of version line.now }
{
    if let Some(vertex) = number_of(line, b"S", 1, MAX_VERTEX) {
        return Some(SplitAt::Vertex(vertex as u32));
    }
    match version {
        Version::One => None,
        Version::Two => link_of(line),
    }
}

//! Dual ascent: directed cuts that bound a branch from below, added one by one (Wong 1984).
//!
//! `ascend` raises a cut round all that reaches a vertex which the root doesn't reach over arcs
//! with nothing left, until a target is reached or none can be added. `fix_levels` cuts round one
//! vertex, by how far others are from it. A caller may rely on each cut's clause and on the laws:
//! joined to a packing that was charged before, the cuts fit the branch, and where none can be
//! added the whole is full. `free` gives back what some cuts of a packing took, and what is left
//! then is what the others leave.
#![tactic(auto)]

mod ascending;
mod ascent;
mod border;
mod charging;
mod extension;
mod freeing;
mod growing;
mod law;
mod levels;
mod raising;
mod searching;
mod turning;
mod waiting;

pub use ascending::ascend;
pub use ascent::Ascent;
pub use charging::charge_cuts;
pub use extension::{Extension, Remainder, extend, join, left_by, raise_over};
pub use freeing::free;
pub use law::{joined_fits, joined_inside_fits, joined_is_full};
pub use levels::fix_levels;

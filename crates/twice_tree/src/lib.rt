//! A first tree that costs at most twice the least, less a share.
//!
//! Where nobody pays, `near_tree` joins the required vertices one by one, each by a cheapest walk
//! from those that are joined (Takahashi and Matsuyama 1980; Mehlhorn 1988). A caller may rely on
//! both ways, a tree or none at all, and on what it costs at most beside every tree. That rests on
//! the law `nearest_is_within_twice`, which holds however the nearest one is found.
#![tactic(auto)]

mod cells;
mod chains;
mod joining;
mod law;
mod laying;
mod near;
mod offers;
mod opening;

pub use law::nearest_is_within_twice;
pub use near::near_tree;

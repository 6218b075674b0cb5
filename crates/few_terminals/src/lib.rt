//! An optimum of an instance with at most twelve terminals, with no search.
//!
//! A table says of each set of terminals and each vertex what a tree from the vertex costs that
//! reaches the set (Dreyfus and Wagner 1972), row by row, each by offers along links (Erickson,
//! Monma and Veinott 1987). A caller may rely on the clauses of `few`: the tree is one of least
//! cost, none is given exactly where there is none, and each fault comes exactly where it holds.
#![tactic(auto)]

mod back;
mod choice;
mod entry;
mod fault;
mod filling;
mod joining;
mod judging;
mod law;
mod mark;
mod optimum;
mod reach;
mod row;
mod table;

pub use fault::FewFault;
pub use law::tables_bound;
pub use optimum::few;

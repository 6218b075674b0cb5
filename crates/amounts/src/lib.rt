//! Amounts: costs and prizes, as the words that say them.
//!
//! An amount has decimal digits, and perhaps a point with more of them. `amount_said` reads a word as a number of
//! millionths, exactly: no digit is rounded away. `put_amount` writes a number of a file's unit, which is one or a
//! millionth, with no zeros at the end of its decimals. A caller may rely on both to the byte, and on the laws that
//! what is written is read as that number, and that no two numbers of one unit are written alike.
#![tactic(auto)]

mod law;
mod reading;
mod scale;
mod writing;

pub use law::{amount_texts_are_read, amount_texts_differ};
pub use reading::{NoAmount, amount_said};
pub use scale::Scale;
pub use writing::{amount_text, put_amount};

//! The tests of `plain_text`, `amounts`, `stp_reader`, `command_line` and `dimacs_writer`.
#![tactic(auto)]

#[cfg(test)]
mod amounts_tests;
#[cfg(test)]
mod command_line_tests;
#[cfg(test)]
mod dimacs_writer_tests;
#[cfg(test)]
mod plain_text_tests;
#[cfg(test)]
mod stp_reader_tests;

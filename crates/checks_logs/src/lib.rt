//! The tests of `log_format`, `certificate_log` and `log_resume`.
#![tactic(auto)]

#[cfg(test)]
mod certificate_log_tests;
#[cfg(test)]
mod log_format_tests;
#[cfg(test)]
mod log_resume_tests;

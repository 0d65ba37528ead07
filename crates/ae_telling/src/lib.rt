//! What is written of an outcome, and how.
#![tactic(auto)]

mod answer;
mod last;
mod put;
mod told;

pub use answer::{tell_answer, tell_why};
pub use last::{tell_bad_line, tell_bad_words, tell_input_fault, tell_memory};
pub use put::put_all;
pub use told::{Told, told_command};

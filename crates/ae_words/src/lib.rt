//! The words of a command: how they are spelled, what they mean, and which word is the first bad one.
#![tactic(auto)]

mod command;
mod items;
mod numbers;
mod read;
mod spelling;
mod table;

pub use command::Command;
pub use items::{behind_dash, split_value};
pub use numbers::NumberList;
pub use read::{WordsError, first_function, read_words, words_have_one_answer};
pub use spelling::matches_option;
pub use table::{Function, Listing, Row, Setting};

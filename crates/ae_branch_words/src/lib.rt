//! The words that name a branch, and begin it, end it or work in it.
#![tactic(auto)]

mod words;

pub use words::{BranchWords, Rest, branch_words};

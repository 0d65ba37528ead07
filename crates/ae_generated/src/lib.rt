//! The text that the generator makes is a script in the grammar.
#![tactic(auto)]

mod laws;

pub use laws::generated_texts_are_scripts;

//! The records of the state files, read and printed.
#![tactic(auto)]

mod ascending;
mod canonical;
mod change;
mod change_rows;
mod error;
mod fields;
mod file_table;
mod format;
mod formats;
mod history;
mod keys;
mod laws;
mod lists;
mod names;
mod parts;
mod project;
mod record;
mod structure;
mod value;
mod version;
mod words;

pub use change::{print_change, read_change, read_change_1, read_change_in};
pub use error::SchemaError;
pub use file_table::{print_files, read_files};
pub use format::Format;
pub use formats::read_format;
pub use laws::{
    change_again, files_again, note_change_lines, note_files_lines, note_project_lines,
    project_again,
};
pub use project::{print_project, read_project, read_project_1, read_project_in};

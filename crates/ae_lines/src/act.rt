// What a plan has.
use ae_base::{Path, Text};
use ae_outside::Dir;
use ae_words::Command;

/// What is to be done: a command, or a file that is written.
#[derive(Drop)]
pub enum Act {
    Run(Command),
    Put(Dir, Path, Text),
}

// Reading the words of a command.
ghost use Rattle.std.specs.Prelude.{◌≡◌, ◌+◌, ◌<◌, ◌∷◌, map, length, string_bytes, IfOk};
ghost use Rattle.ae_words.specs.Formed.{IsFormed};
ghost use Rattle.ae_words.specs.Answer.{IsAnswer, IsReadAs, CommandOrPlace, OneCommand, OnePlace, NeverBoth, PlaceWithin, told};
ghost use Rattle.ae_words.specs.Grammar.{IsCommand};
ghost use Rattle.ae_words.specs.Items.{function};

use crate::command::{Command, Stop, said};
use crate::items::named_function;
use crate::table::Function;
use std::alloc::Global;

/// Why words are no command.
#[derive(Debug, Drop, PartialEq, Eq)]
pub enum WordsError {
    /// The word at this place, counted from 1, is the first bad one; one past the last where a required word is missing.
    Bad(u32),
    Memory,
}

/// A place past it is told as this one.
const LAST_PLACE: usize = 4_294_967_295;

fn told(place: usize) -> u32
    ensures { result ≡ told place }
{
    if place <= LAST_PLACE {
        place as u32
    } else {
        LAST_PLACE as u32
    }
}

// The command that words are whose first is this one.
fn read_function(alloc: Global, first: &[u8], behind: &[String]) -> Result<Command, WordsError>
    requires { length behind.now < 4611686018427387904 }
    ensures answer { IsAnswer (first.now ∷ map string_bytes behind.now) result }
    ensures formed { IfOk result IsFormed }
{
    let Some(function) = named_function(first) else {
        return Err(WordsError::Bad(1));
    };
    match said(alloc, function, behind) {
        Ok(command) => {
            if command.is_whole() {
                Ok(command)
            } else {
                Err(WordsError::Bad(told(behind.len() + 2)))
            }
        }
        Err(Stop::Bad(place)) => Err(WordsError::Bad(told(place))),
        Err(Stop::Memory) => Err(WordsError::Memory),
    }
}

/// The function that the first word names, whatever the others are.
pub fn first_function(words: &[String]) -> Option<Function>
    ensures { result ≡ function (map string_bytes words.now) }
{
    match words {
        [] => None,
        [first, ..] => named_function(first.as_bytes()),
    }
}

/// The command that the words are, the function's word first. The other words may stand in any order, and plain words
/// keep theirs. A place above 4,294,967,295 is told as that.
pub fn read_words(alloc: Global, words: &[String]) -> Result<Command, WordsError>
    ensures answer { IsAnswer (map string_bytes words.now) result }
    ensures only { (c : Command) → IsCommand (map string_bytes words.now) c → IsReadAs c result }
    ensures formed { IfOk result IsFormed }
{
    match words {
        [] => Err(WordsError::Bad(1)),
        [first, behind @ ..] => read_function(alloc, first.as_bytes(), behind),
    }
}

/// Laws: words are a command or have a first bad place, whatever they are; at most one command, at most one place, and
/// never both. That place is at most one past the last word.
pub fn words_have_one_answer()
    ensures one_of_two { CommandOrPlace }
    ensures command { OneCommand }
    ensures place { OnePlace }
    ensures never_both { NeverBoth }
    ensures within { PlaceWithin }
{}

// What the words of a branch say.
ghost use Rattle.std.specs.Prelude.{◌≡◌, ◌<◌, map, option_map, string_bytes, false};
ghost use Rattle.ae_base.specs.Numbers.{delta_number};
ghost use Rattle.ae_words.specs.Spelling.{spells};
ghost use Rattle.ae_branch_words.specs.Said.{IsAnswer, begin_from, begin_said, finish_said, names_branch, option_of, option_said, rest_said, with_no_more};

use ae_base::{Delta, ProjectName};
use ae_words::{WordsError, behind_dash, matches_option, split_value};
use std::alloc::Global;

/// What words say of a branch.
#[derive(Clone, Copy, Debug, PartialEq, Eq)]
pub enum Rest {
    /// It is begun from this delta of the trunk.
    Begin(Delta),
    /// It is ended, which makes a change of the trunk.
    Finish,
    /// The words after its name are those of a command in it.
    Plain,
}

/// The branch that words name, and what they say of it.
#[derive(Debug, Drop)]
pub struct BranchWords {
    pub name: ProjectName,
    pub rest: Rest,
}

// The name of the option that a word is, and its value where `=` stands in the word.
fn option_of(word: &[u8]) -> Option<(&[u8], Option<&[u8]>)>
    ensures { option_map (λ option. (option.0.now, option_map (λ s. s.now) option.1)) result ≡ option_of word.now }
{
    Some(split_value(behind_dash(word)?))
}

fn spells(pattern: &[u8], name: &[u8]) -> bool
    ensures { result ≡ spells false pattern.now name.now }
{
    matches_option(pattern, name)
}

fn names_branch(word: &[u8]) -> bool
    ensures { result ≡ names_branch (option_of word.now) }
{
    match option_of(word) {
        Some((name, None)) => spells(b"BRanch", name),
        _ => false,
    }
}

// Only where nothing more follows; else the word at this place is one too many.
fn with_no_more(at: u32, said: Rest, after: &[String]) -> Result<Rest, u32>
    ensures { result ≡ with_no_more at said (map string_bytes after.now) }
{
    if after.is_empty() { Ok(said) } else { Err(at) }
}

// A begin from the delta that the word at this place writes.
fn begin_from(at: u32, word: &[u8], after: &[String]) -> Result<Rest, u32>
    requires { at < 5 }
    ensures { result ≡ begin_from at (delta_number word.now) (map string_bytes after.now) }
{
    match Delta::read(word) {
        None => Err(at),
        Some(delta) => with_no_more(at + 1, Rest::Begin(delta), after),
    }
}

fn begin_said(value: Option<&[u8]>, after: &[String]) -> Result<Rest, u32>
    ensures { result ≡ begin_said (option_map (λ s. s.now) value.entry) (map string_bytes after.now) }
{
    match (value, after) {
        (Some(value), _) => begin_from(3, value, after),
        (None, []) => Err(4),
        (None, [delta, after @ ..]) => begin_from(4, delta.as_bytes(), after),
    }
}

fn finish_said(value: Option<&[u8]>, after: &[String]) -> Result<Rest, u32>
    ensures { result ≡ finish_said (option_map (λ s. s.now) value.entry) (map string_bytes after.now) }
{
    match value {
        None => with_no_more(4, Rest::Finish, after),
        Some(_) => Err(3),
    }
}

// What the words after the name of a branch say, or the place of the first bad one.
fn rest_said(words: &[String]) -> Result<Rest, u32>
    ensures { result ≡ rest_said (map string_bytes words.now) }
{
    let [third, after @ ..] = words else {
        return Ok(Rest::Plain);
    };
    let Some((name, value)) = option_of(third.as_bytes()) else {
        return Ok(Rest::Plain);
    };
    if spells(b"BEGin", name) {
        begin_said(value, after)
    } else if spells(b"FINish", name) {
        finish_said(value, after)
    } else {
        Ok(Rest::Plain)
    }
}

/// The branch that the words name, and what they say of it: they begin with `-BRanch` and its name. `-BEGin` and a delta
/// begin it, `-FINish` ends it, and nothing more follows; all else after its name is a command's, which isn't read here.
/// `None` exactly where the first word isn't `-BRanch` or the second is no name.
pub fn branch_words(alloc: Global, words: &[String]) -> Result<Option<BranchWords>, WordsError>
    ensures { IsAnswer (map string_bytes words.now) result }
{
    let [first, name, after @ ..] = words else {
        return Ok(None);
    };
    if !names_branch(first.as_bytes()) {
        return Ok(None);
    }
    match ProjectName::read(alloc, name.as_bytes()) {
        Err(_) => Err(WordsError::Memory),
        Ok(None) => Ok(None),
        Ok(Some(name)) => match rest_said(after) {
            Ok(rest) => Ok(Some(BranchWords { name, rest })),
            Err(place) => Err(WordsError::Bad(place)),
        },
    }
}

// A line of a script.
ghost use Rattle.std.specs.Prelude.{◌≡◌, ◌≤◌, true, false, map, string_bytes, IfOk, IfSome, IfNone, option_copied};
ghost use Rattle.ae_lines.specs.declared.line.Line.{Line};
ghost use Rattle.ae_lines.specs.Line.{IsLine, IsPlace, IsReady, after_beginning, develop_named, base_named, integrate_named, dir_named, place_of, as_line, at_line, put_line, fill_with, fill_line, drop_line, is_comment, is_ascii_word, most_filled, number_up_to, said_of, said_by, Means, asks};
ghost use Rattle.std.specs.List.{list_all};
ghost use Rattle.ae_words.specs.Formed.{IsFormed};
ghost use Rattle.ae_words.specs.Grammar.{IsCommand};
ghost use Rattle.ae_words.specs.declared.command.Command.{Command};
ghost use Rattle.ae_words.specs.Table.{is_one_command};

use crate::token::tokens;
use ae_base::limits::LAST_MOMENT;
use ae_base::{ChangeNo, Delta, Path, Text, User, read_number};
use ae_outside::Dir;
use ae_words::{Command, WordsError, read_words};
use std::alloc::{AllocError, Global};

/// What a line of a script says.
#[derive(Drop)]
pub enum Line {
    /// Nothing: it has no token, or is a comment.
    Nothing,
    /// The following commands are this user's.
    As(User),
    /// They come at this moment.
    At(u64),
    /// A command.
    Do(Command),
    /// A file is written.
    Put(Dir, Path, Text),
    /// The same with so many times this byte.
    Fill(Dir, Path, u32, u8),
    /// A file is removed.
    Remove(Dir, Path),
}

/// The most bytes that a line fills a file with: 8 MiB.
const MOST_FILLED: u32 = 8_388_608;

/// The most digits of a number.
const MOST_DIGITS: usize = 20;

// The number that these digits write, where it is at most that.
fn number_up_to(most: u64, word: &[u8]) -> Option<u64>
    ensures is { result ≡ number_up_to most word.now }
    ensures most { IfSome result (λ number. number ≤ most) }
{
    read_number(MOST_DIGITS, 0, most, word)
}

// What stands after this beginning.
fn after_beginning<'a>(beginning: &[u8], word: &'a [u8]) -> Option<&'a [u8]>
    ensures { option_copied result ≡ after_beginning beginning.now word.now }
{
    if word.starts_with(beginning) {
        Some(&word[beginning.len()..])
    } else {
        None
    }
}

fn develop_named(word: &[u8]) -> Option<Dir>
    ensures { result ≡ develop_named word.now }
{
    let number = ChangeNo::read(after_beginning(b"develop.", word)?)?;
    Some(Dir::Develop(number))
}

fn base_named(word: &[u8]) -> Option<Dir>
    ensures { result ≡ base_named word.now }
{
    let number = ChangeNo::read(after_beginning(b"base.", word)?)?;
    Some(Dir::Base(number))
}

fn integrate_named(word: &[u8]) -> Option<Dir>
    ensures { result ≡ integrate_named word.now }
{
    let delta = Delta::read(after_beginning(b"integrate.", word)?)?;
    if delta.number() == 0 {
        return None;
    }
    Some(Dir::Integrate(delta))
}

// `here`, `develop.N`, `integrate.D` or `base.N`.
fn dir_named(word: &[u8]) -> Option<Dir>
    ensures { result ≡ dir_named word.now }
{
    if word == b"here".as_slice() {
        return Some(Dir::Here);
    }
    if let Some(dir) = develop_named(word) {
        return Some(dir);
    }
    if let Some(dir) = integrate_named(word) {
        return Some(dir);
    }
    base_named(word)
}

// The place of a file.
fn place_of(alloc: Global, dir: &[u8], path: &[u8]) -> Result<Option<(Dir, Path)>, AllocError>
    ensures is { IfOk result (λ o. o ≡ place_of dir.now path.now) }
    ensures ready { IfOk result (λ o. IfSome o (λ place. IsPlace place.0 place.1)) }
{
    let Some(path) = Path::read(alloc, path)? else {
        return Ok(None);
    };
    match dir_named(dir) {
        Some(dir) => Ok(Some((dir, path))),
        None => Ok(None),
    }
}

fn as_line(alloc: Global, rest: &[Text]) -> Result<Option<Line>, AllocError>
    ensures is { IfOk result (λ o. o ≡ as_line rest.now) }
    ensures ready { IfOk result (λ o. IfSome o IsReady) }
{
    let [user] = rest else {
        return Ok(None);
    };
    match User::read(alloc, user.bytes())? {
        Some(user) => Ok(Some(Line::As(user))),
        None => Ok(None),
    }
}

fn at_line(rest: &[Text]) -> Option<Line>
    ensures is { result ≡ at_line rest.now }
    ensures ready { IfSome result IsReady }
{
    let [moment] = rest else {
        return None;
    };
    let moment = number_up_to(LAST_MOMENT, moment.bytes())?;
    Some(Line::At(moment))
}

fn put_line(alloc: Global, rest: &[Text]) -> Result<Option<Line>, AllocError>
    ensures is { IfOk result (λ o. o ≡ put_line rest.now) }
    ensures ready { IfOk result (λ o. IfSome o IsReady) }
{
    let [dir, path, text] = rest else {
        return Ok(None);
    };
    let Some((dir, path)) = place_of(alloc, dir.bytes(), path.bytes())? else {
        return Ok(None);
    };
    Ok(Some(Line::Put(dir, path, text.copy(alloc)?)))
}

fn count_of(word: &[u8]) -> Option<u32>
    ensures is { result ≡ number_up_to most_filled word.now }
    ensures most { IfSome result (λ count. count ≤ most_filled) }
{
    let count = number_up_to(u64::from(MOST_FILLED), word)?;
    if count <= u64::from(MOST_FILLED) {
        Some(count as u32)
    } else {
        None
    }
}

fn byte_of(word: &[u8]) -> Option<u8>
    ensures is { result ≡ number_up_to 255 word.now }
    ensures most { IfSome result (λ byte. byte ≤ 255) }
{
    let byte = number_up_to(255, word)?;
    if byte <= 255 { Some(byte as u8) } else { None }
}

// The line that fills the file at this place, where the words are a count and a byte.
fn filled(place: (Dir, Path), count: &[u8], byte: &[u8]) -> Option<Line>
    requires { IsPlace place.0 place.1 }
    ensures is { result ≡ fill_with (number_up_to most_filled count.now) (number_up_to 255 byte.now) place }
    ensures ready { IfSome result IsReady }
{
    let count = count_of(count)?;
    let byte = byte_of(byte)?;
    let (dir, path) = place;
    Some(Line::Fill(dir, path, count, byte))
}

fn fill_line(alloc: Global, rest: &[Text]) -> Result<Option<Line>, AllocError>
    ensures is { IfOk result (λ o. o ≡ fill_line rest.now) }
    ensures ready { IfOk result (λ o. IfSome o IsReady) }
{
    let [dir, path, count, byte] = rest else {
        return Ok(None);
    };
    match place_of(alloc, dir.bytes(), path.bytes())? {
        Some(place) => Ok(filled(place, count.bytes(), byte.bytes())),
        None => Ok(None),
    }
}

fn drop_line(alloc: Global, rest: &[Text]) -> Result<Option<Line>, AllocError>
    ensures is { IfOk result (λ o. o ≡ drop_line rest.now) }
    ensures ready { IfOk result (λ o. IfSome o IsReady) }
{
    let [dir, path] = rest else {
        return Ok(None);
    };
    match place_of(alloc, dir.bytes(), path.bytes())? {
        Some((dir, path)) => Ok(Some(Line::Remove(dir, path))),
        None => Ok(None),
    }
}

fn is_comment(text: &[u8]) -> bool
    ensures { result ≡ is_comment text.now }
{
    match text {
        [] => false,
        [first, ..] => *first == b'#',
    }
}

fn is_ascii_word(word: &[u8]) -> bool
    ensures { result ≡ is_ascii_word word.now }
{
    word.iter().all(|b| *b <= 127)
}

// A word of bytes below 128 as text.
fn word_of(alloc: Global, word: &[u8]) -> Result<String, AllocError>
    requires { is_ascii_word word.now ≡ true }
    ensures { IfOk result (λ text. string_bytes text ≡ word.now) }
{
    match str::from_utf8(word) {
        Ok(text) => String::from_str(alloc, text),
        Err(_) => unreachable!(),
    }
}

// The words of a command, where each byte of them is below 128.
fn words_of(alloc: Global, rest: &[Text]) -> Result<Option<Vec<String>>, AllocError>
    ensures words { IfOk result (λ o. IfSome o (λ words. map string_bytes words.items ≡ rest.now)) }
    ensures ascii { IfOk result (λ o. IfSome o (λ words. list_all is_ascii_word rest.now ≡ true)) }
    ensures none { IfOk result (λ o. IfNone o (list_all is_ascii_word rest.now ≡ false)) }
{
    let mut words = Vec::new(alloc);
    for word in rest {
        let bytes = word.bytes();
        if !is_ascii_word(bytes) {
            return Ok(None);
        }
        words.push(word_of(alloc, bytes)?)?;
    }
    Ok(Some(words))
}

// The command that these words are, where it is one that may stand in a script.
fn command_of(alloc: Global, words: &[String]) -> Result<Option<Command>, AllocError>
    ensures is { IfOk result (λ o. IfSome o (λ command. IsCommand (map string_bytes words.now) command)) }
    ensures one { IfOk result (λ o. IfSome o (λ command. is_one_command command.function ≡ true)) }
    ensures none { IfOk result (λ o. IfNone o ((command : Command) →
        IsCommand (map string_bytes words.now) command → is_one_command command.function ≡ true → ⊥)) }
    ensures formed { IfOk result (λ o. IfSome o (λ command. IsFormed command)) }
{
    match read_words(alloc, words) {
        Ok(command) => {
            if command.function.is_one_command() {
                Ok(Some(command))
            } else {
                Ok(None)
            }
        }
        Err(WordsError::Bad(_)) => Ok(None),
        Err(WordsError::Memory) => Err(AllocError),
    }
}

fn command_line(alloc: Global, rest: &[Text]) -> Result<Option<Line>, AllocError>
    ensures is { IfOk result (λ o. IfSome o (λ line. Means (asks rest.now) line)) }
    ensures none { IfOk result (λ o. IfNone o ((line : Line) → Means (asks rest.now) line → ⊥)) }
    ensures ready { IfOk result (λ o. IfSome o IsReady) }
{
    let Some(words) = words_of(alloc, rest)? else {
        return Ok(None);
    };
    match command_of(alloc, words.as_slice())? {
        Some(command) => Ok(Some(Line::Do(command))),
        None => Ok(None),
    }
}

// What tokens say that begin with this one.
fn said_by(alloc: Global, name: &[u8], rest: &[Text]) -> Result<Option<Line>, AllocError>
    ensures is { IfOk result (λ o. IfSome o (λ line. Means (said_by name.now rest.now) line)) }
    ensures none { IfOk result (λ o. IfNone o ((line : Line) → Means (said_by name.now rest.now) line → ⊥)) }
    ensures ready { IfOk result (λ o. IfSome o IsReady) }
{
    if name == b"as".as_slice() {
        as_line(alloc, rest)
    } else if name == b"at".as_slice() {
        Ok(at_line(rest))
    } else if name == b"do".as_slice() {
        command_line(alloc, rest)
    } else if name == b"put".as_slice() {
        put_line(alloc, rest)
    } else if name == b"fill".as_slice() {
        fill_line(alloc, rest)
    } else if name == b"drop".as_slice() {
        drop_line(alloc, rest)
    } else {
        Ok(None)
    }
}

fn said_of(alloc: Global, tokens: &[Text]) -> Result<Option<Line>, AllocError>
    ensures is { IfOk result (λ o. IfSome o (λ line. Means (said_of tokens.now) line)) }
    ensures none { IfOk result (λ o. IfNone o ((line : Line) → Means (said_of tokens.now) line → ⊥)) }
    ensures ready { IfOk result (λ o. IfSome o IsReady) }
{
    match tokens {
        [] => Ok(Some(Line::Nothing)),
        [name, rest @ ..] => said_by(alloc, name.bytes(), rest),
    }
}

/// The line that this text says, or `None` where it isn't understood.
pub fn read_line(alloc: Global, text: &[u8]) -> Result<Option<Line>, AllocError>
    ensures is { IfOk result (λ o. IfSome o (λ line. IsLine text.now line)) }
    ensures none { IfOk result (λ o. IfNone o ((line : Line) → IsLine text.now line → ⊥)) }
    ensures ready { IfOk result (λ o. IfSome o IsReady) }
{
    if is_comment(text) {
        return Ok(Some(Line::Nothing));
    }
    match tokens(alloc, text)? {
        Some(tokens) => said_of(alloc, tokens.as_slice()),
        None => Ok(None),
    }
}

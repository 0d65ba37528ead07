// Options with their values, and plain words.
ghost use Rattle.std.specs.Prelude.{◌≡◌, ◌+◌, ◌<◌, ◌∷◌, [], length, option_map, map, string_bytes, MatchOption, position, ◌==◌, false};
ghost use Rattle.ae_words.specs.Items.{is_flag, without_dash, behind_dash, name_and_value, word, items_from, listing, function};
ghost use Rattle.ae_words.specs.Seen.{word_seen, item_seen};

use crate::table::{Function, Listing, Setting};

impl Setting {
    fn is_flag(self) -> bool
        ensures { result ≡ is_flag self }
    {
        matches!(
            self,
            Setting::Overwriting | Setting::Baseline | Setting::Regression
        )
    }
}

/// What one word is.
#[derive(Clone, Copy)]
pub(crate) enum Word<'a> {
    Plain,
    Flag(Setting),
    /// An option, and its value in the same word.
    Written(Setting, &'a [u8]),
    /// An option whose value is the next word.
    Asks(Setting),
    /// An option word that matches none, or a flag with a value.
    Wrong,
}

/// The words that belong together.
#[derive(Clone, Copy)]
pub(crate) enum Item<'a> {
    Plain(&'a [u8]),
    Flag(Setting),
    /// An option, and its value with its place.
    Valued(Setting, usize, &'a [u8]),
    /// An option word that matches none, a flag with a value, or an option without one.
    Wrong,
}

fn without_dash(text: &[u8]) -> &[u8]
    ensures { result.now ≡ without_dash text.now }
{
    match text {
        [b'-', rest @ ..] => rest,
        _ => text,
    }
}

/// The text of an option: what stands after the one or two dashes that begin the word. `None` where none does.
pub fn behind_dash(text: &[u8]) -> Option<&[u8]>
    ensures { option_map (λ s. s.now) result ≡ behind_dash text.now }
{
    match text {
        [b'-', rest @ ..] => Some(without_dash(rest)),
        _ => None,
    }
}

fn equals_at(text: &[u8]) -> Option<usize>
    ensures { result ≡ position (λ b. b == 61) text.now }
{
    text.iter().position(|b| *b == b'=')
}

/// The name of an option, and its value where `=` stands in the text.
pub fn split_value(text: &[u8]) -> (&[u8], Option<&[u8]>)
    ensures { (result.0.now, option_map (λ s. s.now) result.1) ≡ name_and_value text.now }
{
    match equals_at(text) {
        None => (text, None),
        Some(i) => (&text[..i], Some(&text[i + 1..])),
    }
}

#[tactic(auto, unfolding(crate::specs::Items::word))]
pub(crate) fn read_word(text: &[u8]) -> Word<'_>
    ensures { word_seen result ≡ word text.now }
{
    let Some(text) = behind_dash(text) else {
        return Word::Plain;
    };
    let (name, value) = split_value(text);
    match (Setting::find(name), value) {
        (None, _) => Word::Wrong,
        (Some(option), None) => {
            if option.is_flag() {
                Word::Flag(option)
            } else {
                Word::Asks(option)
            }
        }
        (Some(option), Some(value)) => {
            if option.is_flag() {
                Word::Wrong
            } else {
                Word::Written(option, value)
            }
        }
    }
}

/// The function that the first word names.
pub(crate) fn named_function(text: &[u8]) -> Option<Function>
    ensures { result ≡ function (text.now ∷ []) }
{
    let (name, value) = split_value(behind_dash(text)?);
    match value {
        None => Function::find(name),
        Some(_) => None,
    }
}

/// The first item of the words from this place on, and the place and the words after it.
pub(crate) fn next_item(at: usize, words: &[String]) -> Option<(Item<'_>, usize, &[String])>
    requires { at + length words.now < 18446744073709551615 }
    ensures item { MatchOption result (words.now ≡ [])
        (λ r. items_from at false (map string_bytes words.now) ≡ item_seen at r.0 ∷ items_from r.1 false (map string_bytes r.2.now)) }
    ensures place { MatchOption result (words.now ≡ []) (λ r. r.1 + length r.2.now ≡ at + length words.now) }
    ensures less { MatchOption result (words.now ≡ []) (λ r. length r.2.now < length words.now) }
{
    let [first, behind @ ..] = words else {
        return None;
    };
    let item = match read_word(first.as_bytes()) {
        Word::Plain => Item::Plain(first.as_bytes()),
        Word::Flag(option) => Item::Flag(option),
        Word::Written(option, value) => Item::Valued(option, at, value),
        Word::Wrong => Item::Wrong,
        Word::Asks(option) => {
            return match behind {
                [] => Some((Item::Wrong, at + 1, behind)),
                [value, behind @ ..] => {
                    Some((
                        Item::Valued(option, at + 1, value.as_bytes()),
                        at + 2,
                        behind,
                    ))
                }
            };
        }
    };
    Some((item, at + 1, behind))
}

/// The listing that the first plain word names.
pub(crate) fn named_listing(words: &[String]) -> Option<Listing>
    requires { length words.now < 4611686018427387904 }
    ensures { result ≡ listing (items_from 2 false (map string_bytes words.now)) }
{
    let mut at = 2;
    let mut rest = words;
    while let Some((item, behind_at, behind)) = next_item(at, rest) {
        if let Item::Plain(text) = item {
            return Listing::find(text);
        }
        at = behind_at;
        rest = behind;
    }
    None
}

// The tokens of bytes, with their lines.
ghost use Rattle.std.specs.Prelude.{◌≡◌, ◌<◌, ◌≤◌, ◌==◌, length, take, drop, false, find, IfOk};
ghost use Rattle.std.specs.List.{starts_with};
ghost use Rattle.ae_text.specs.Grammar.{line_ends};
ghost use Rattle.ae_text.specs.Steps.{token_of as text_token_of};
ghost use Rattle.ae_rlang.specs.Token.{from_text, keyword_named, sign_at, spelling, word_token};
ghost use Rattle.ae_rlang.specs.Scan.{AreScanned, behind_lexeme, is_last, next_lexeme, report_token};
ghost use Rattle.ae_rlang.specs.Steps.{lexeme_of, lexemes_seen, token_of};

use crate::table::Word;
use crate::token::{Lexeme, Mark, Token, keyword_of};
use ae_base::Text;
use ae_text::{Token as TextToken, ends_before, number_of_line, read_token, skip_gap};
use std::alloc::{AllocError, Global};

const SIGNS: [Mark; 17] = [
    Mark::Equal,
    Mark::Assign,
    Mark::AtMost,
    Mark::Less,
    Mark::Unequal,
    Mark::Semicolon,
    Mark::Comma,
    Mark::OpenList,
    Mark::CloseList,
    Mark::OpenBlock,
    Mark::CloseBlock,
    Mark::OpenGroup,
    Mark::CloseGroup,
    Mark::Dot,
    Mark::Colon,
    Mark::Plus,
    Mark::Minus,
];

fn begins_with(bytes: &[u8], sign: Mark) -> bool
    ensures { result ≡ starts_with (λ a b. a == b) bytes.now (spelling sign) }
{
    bytes.starts_with(sign.word().as_bytes())
}

// The sign that the bytes begin with, of two the longer one.
fn sign_at(bytes: &[u8]) -> Option<Mark>
    ensures { result ≡ sign_at bytes.now }
{
    SIGNS.iter().copied().find(|sign| begins_with(bytes, *sign))
}

// A word of the grammar, or a name.
fn word_token(word: Text) -> Token
    ensures { token_of result ≡ word_token word (keyword_named word) }
{
    match keyword_of(word.bytes()) {
        Some(mark) => Token::Mark(mark),
        None => Token::Name(word),
    }
}

// What a token of a text is in a report.
fn from_text(token: TextToken) -> Token
    ensures { token_of result ≡ from_text (text_token_of token) }
{
    match token {
        TextToken::Word(word) => word_token(word),
        TextToken::Number(n) => Token::Number(n),
        TextToken::Str(text) => Token::Str(text),
        TextToken::End => Token::End,
        TextToken::Sign(_) | TextToken::Bad => Token::Bad,
    }
}

// The bytes behind the first ones, or behind all where there are fewer.
fn behind(bytes: &[u8], length: usize) -> &[u8]
    ensures { result.now ≡ drop length bytes.now }
{
    if length <= bytes.len() {
        &bytes[length..]
    } else {
        &bytes[bytes.len()..]
    }
}

// The token at the front, where no blank or comment stands, and the bytes after it.
#[tactic(auto, unfolding(crate::specs::Scan::report_token))]
fn token_at(alloc: Global, bytes: &[u8]) -> Result<(Token, &[u8]), AllocError>
    ensures value { IfOk result (λ r. (token_of r.0, r.1.now) ≡ report_token bytes.now) }
    ensures shorter { IfOk result (λ r. is_last (token_of r.0) ≡ false → length r.1.now < length bytes.now) }
    ensures within { IfOk result (λ r. length r.1.now ≤ length bytes.now) }
{
    if let Some(mark) = sign_at(bytes) {
        return Ok((Token::Mark(mark), behind(bytes, mark.word().len())));
    }
    let (token, rest) = read_token(alloc, bytes)?;
    Ok((from_text(token), rest))
}

// It is the end of the bytes, or what is no token.
fn is_last(token: &Token) -> bool
    ensures { result ≡ is_last (token_of token.now) }
{
    matches!(token, Token::End | Token::Bad)
}

// The next token of the rest, the bytes after it, its place, and the line ends before that.
fn scanned<'a>(
    alloc: Global,
    bytes: &[u8],
    rest: &'a [u8],
    from: usize,
    ends: usize,
) -> Result<(Lexeme, &'a [u8], usize, usize), AllocError>
    requires counted { ends ≡ line_ends (take from bytes.now) }
    requires within { length rest.now ≤ length bytes.now }
    ensures lexeme { IfOk result (λ r. lexeme_of r.0 ≡ next_lexeme bytes.now rest.now) }
    ensures behind { IfOk result (λ r. r.1.now ≡ behind_lexeme rest.now) }
    ensures counted { IfOk result (λ r. r.3 ≡ line_ends (take r.2 bytes.now)) }
    ensures within { IfOk result (λ r. length r.1.now ≤ length rest.now) }
    ensures shorter { IfOk result (λ r. is_last (token_of r.0.token) ≡ false → length r.1.now < length rest.now) }
{
    let here = skip_gap(rest);
    let at = bytes.len() - here.len();
    let ends = ends_before(bytes, from, ends, at);
    let (token, behind) = token_at(alloc, here)?;
    let lexeme = Lexeme {
        line: number_of_line(ends),
        token,
    };
    Ok((lexeme, behind, at, ends))
}

/// All tokens, up to the end of the bytes or to what is no token.
pub(crate) fn lexemes(alloc: Global, bytes: &[u8]) -> Result<Vec<Lexeme>, AllocError>
    ensures { IfOk result (λ found. AreScanned bytes.now (lexemes_seen found.items)) }
{
    let mut found = Vec::new(alloc);
    let mut rest = bytes;
    let mut from = 0;
    let mut ends = 0;
    let mut more = true;
    while more {
        let (lexeme, behind, at, counted) = scanned(alloc, bytes, rest, from, ends)?;
        more = !is_last(&lexeme.token);
        found.push(lexeme)?;
        rest = behind;
        from = at;
        ends = counted;
    }
    Ok(found)
}

// What bytes are shown as on a terminal, so that nothing in them acts there, or hides.
use std::fmt;
use std::fmt::{Display, Formatter};
use ucd_category::GeneralCategory;
use ucd_derived::is_default_ignorable_code_point;

/// Bytes whose printable characters are shown as they are, tabs and line ends too, and all else reversed: a character by its number, as
/// `<U+202E>`, and what isn't UTF-8 as `\x9b`.
#[derive(Clone, Copy)]
pub struct Shown<'a>(pub &'a [u8]);

// Whether a terminal shows a character, and does nothing else with it.
fn is_seen(c: char) -> bool {
    match GeneralCategory::for_char(c) {
        GeneralCategory::Control => c == '\t' || c == '\n',
        GeneralCategory::Format
        | GeneralCategory::Surrogate
        | GeneralCategory::PrivateUse
        | GeneralCategory::Unassigned
        | GeneralCategory::LineSeparator
        | GeneralCategory::ParagraphSeparator => false,
        _ => !is_default_ignorable_code_point(c),
    }
}

fn show_char<W: fmt::Write>(c: char, f: &mut Formatter<W>) -> fmt::Result {
    if is_seen(c) {
        return write!(f, "{c}");
    }
    let number = u32::from(c);
    write!(f, "\x1b[7m<U+{number:04X}>\x1b[27m")
}

fn show_text<W: fmt::Write>(text: &str, f: &mut Formatter<W>) -> fmt::Result {
    for c in text.chars() {
        show_char(c, f)?;
    }
    Ok(())
}

fn show_bytes<W: fmt::Write>(bytes: &[u8], f: &mut Formatter<W>) -> fmt::Result {
    for byte in bytes {
        write!(f, "\x1b[7m\\x{byte:02x}\x1b[27m")?;
    }
    Ok(())
}

impl<'a> Display for Shown<'a> {
    fn fmt<W: fmt::Write>(&self, f: &mut Formatter<W>) -> fmt::Result {
        for chunk in self.0.utf8_chunks() {
            show_text(chunk.valid(), f)?;
            show_bytes(chunk.invalid(), f)?;
        }
        Ok(())
    }
}

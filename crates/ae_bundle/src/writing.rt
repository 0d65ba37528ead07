// The text of a change set is written.
ghost use Rattle.std.specs.Prelude.{◌≡◌, ◌++◌, ◌∷◌, [], IfOk, OnOk};
ghost use Rattle.std.specs.List.{flat_map};
ghost use Rattle.std.specs.Fmt.{decimal};
ghost use Rattle.ae_base.specs.Words.{cause_word};
ghost use Rattle.ae_bundle.specs.Bundled.{blank, line, counted, cause_label, file_label, file_part, head_of, end_of, Fits, Bundled};

use crate::digits::hex_digits;
use crate::{Bundle, BundleFile};
use ae_base::Cause;
use itoa::Buffer;
use sha2::{Digest, Sha256};
use std::alloc::{AllocError, Global};

// The most bytes that the lines of a text have which don't tell of files, and those of a file's lines without its path.
const OTHER_LINES: usize = 256;

const FILE_LINES: usize = 32;

fn put_number(text: &mut Vec<u8>, number: usize) -> Result<(), AllocError>
    ensures { OnOk result (text.new.items ≡ text.old.items ++ decimal number) }
{
    let mut buffer = Buffer::new();
    text.extend_from_slice(buffer.format(number).as_bytes())
}

// How many bytes follow, and on the next lines these bytes.
fn put_counted(text: &mut Vec<u8>, bytes: &[u8]) -> Result<(), AllocError>
    ensures { OnOk result (text.new.items ≡ text.old.items ++ counted [] bytes.now) }
{
    put_number(text, bytes.len())?;
    text.extend_from_slice(b"\n")?;
    text.extend_from_slice(bytes)?;
    text.extend_from_slice(b"\n")
}

// A label, and a text that is counted.
fn put_text(text: &mut Vec<u8>, label: &[u8], bytes: &[u8]) -> Result<(), AllocError>
    ensures { OnOk result (text.new.items ≡ text.old.items ++ counted label.now bytes.now) }
{
    text.extend_from_slice(label)?;
    put_counted(text, bytes)
}

// A word, and a blank after it.
fn put_word(text: &mut Vec<u8>, word: &[u8]) -> Result<(), AllocError>
    ensures { OnOk result (text.new.items ≡ text.old.items ++ (word.now ++ blank ∷ [])) }
{
    text.extend_from_slice(word)?;
    text.extend_from_slice(b" ")
}

fn put_file_label(text: &mut Vec<u8>, file: &BundleFile) -> Result<(), AllocError>
    ensures { OnOk result (text.new.items ≡
        text.old.items ++ file_label file.now.action file.now.usage file.now.path) }
{
    put_word(text, file.action.word().as_bytes())?;
    put_word(text, file.usage.word().as_bytes())?;
    put_word(text, file.path.bytes())
}

fn put_file(text: &mut Vec<u8>, file: &BundleFile) -> Result<(), AllocError>
    ensures { OnOk result (text.new.items ≡ text.old.items ++ file_part file.now) }
{
    put_file_label(text, file)?;
    put_counted(text, file.bytes.bytes())
}

fn put_files(text: &mut Vec<u8>, files: &[BundleFile]) -> Result<(), AllocError>
    ensures { OnOk result (text.new.items ≡ text.old.items ++ flat_map file_part files.now) }
{
    for file in files {
        put_file(text, file)?;
    }
    Ok(())
}

fn put_cause(text: &mut Vec<u8>, cause: Cause) -> Result<(), AllocError>
    ensures { OnOk result (text.new.items ≡ text.old.items ++ line (cause_label ++ cause_word cause)) }
{
    text.extend_from_slice(b"cause ")?;
    text.extend_from_slice(cause.word().as_bytes())?;
    text.extend_from_slice(b"\n")
}

// The lines before the files.
fn put_head(text: &mut Vec<u8>, bundle: &Bundle) -> Result<(), AllocError>
    ensures { OnOk result (text.new.items ≡ text.old.items ++ head_of bundle.now) }
{
    text.extend_from_slice(b"aegis-change 1\n")?;
    put_text(text, b"brief ", bundle.brief.bytes())?;
    put_text(text, b"description ", bundle.description.bytes())?;
    put_cause(text, bundle.cause)
}

// The last line of the text that has this front.
fn put_end(text: &mut Vec<u8>) -> Result<(), AllocError>
    ensures { OnOk result (text.new.items ≡ text.old.items ++ line (end_of text.old.items)) }
{
    let digits = hex_digits(&Sha256::digest(text.as_slice()));
    text.extend_from_slice(b"end ")?;
    text.extend_from_slice(digits.as_slice())?;
    text.extend_from_slice(b"\n")
}

// Room for the whole text, so that it never moves while it grows.
fn room_for(bundle: &Bundle) -> usize {
    let mut room = OTHER_LINES
        .saturating_add(bundle.brief.bytes().len())
        .saturating_add(bundle.description.bytes().len());
    for file in bundle.files.as_slice() {
        room = room
            .saturating_add(FILE_LINES)
            .saturating_add(file.path.bytes().len())
            .saturating_add(file.bytes.bytes().len());
    }
    room
}

/// The one text of a change set.
pub fn write_bundle(alloc: Global, bundle: &Bundle) -> Result<Vec<u8>, AllocError>
    requires { Fits bundle.now }
    ensures { IfOk result (λ text. Bundled text.items bundle.now) }
{
    let mut text = Vec::with_capacity(alloc, room_for(bundle))?;
    put_head(&mut text, bundle)?;
    put_files(&mut text, bundle.files.as_slice())?;
    put_end(&mut text)?;
    Ok(text)
}

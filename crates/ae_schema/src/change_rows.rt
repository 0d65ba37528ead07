// How the files and the runs of a change are spelled.
ghost use Rattle.std.specs.Prelude.{◌≡◌, OnOk};
ghost use Rattle.ae_schema.specs.Fits.{FitsRun, FitsOutcome};
ghost use Rattle.ae_schema.specs.Spelled.{run_fields, outcome_fields};
ghost use Rattle.ae_schema.specs.Put.{ArePut, spaced};
ghost use Rattle.ae_schema.specs.Shapes.{evidence_from, change_file_from};

use crate::canonical::Cursor;
use crate::fields::{End, Then};
use crate::structure::{guess_structure, read_structure};
use crate::value::{Decode, Encode, Row, put_both, put_field, put_structure};
use ae_base::{Action, Ground, Kind, Path, Usage, User};
use ae_text::Tree;
use ae_types::{ChangeFile, Evidence, VersionRef};
use std::alloc::{AllocError, Global};

// The names of its fields.
const CHANGE_FILE_NAMES: [&[u8]; 5] = [b"path", b"action", b"usage", b"origin", b"version"];

type ChangeFileFields = Then<
    Path,
    Then<Action, Then<Usage, Then<u32, Then<Option<VersionRef>, End>>>>,
>;

fn change_file_of(fields: ChangeFileFields) -> ChangeFile
    ensures { result ≡ change_file_from fields }
{
    let Then { first: path, rest } = fields;
    let Then {
        first: action,
        rest,
    } = rest;
    let Then { first: usage, rest } = rest;
    let Then {
        first: origin,
        rest,
    } = rest;
    let Then {
        first: frozen,
        rest: End,
    } = rest;
    ChangeFile {
        path,
        action,
        usage,
        origin,
        frozen,
    }
}

impl Decode for ChangeFile {
    ghost use Rattle.ae_schema.specs.Spelled.{change_file};
    ghost use Rattle.ae_schema.specs.Fits.{FitsChangeFile};
    ghost use Rattle.ae_schema.specs.SomeValues.{some_change_file};

    ghost spelled = { change_file };

    ghost Fits = { FitsChangeFile };

    fn of_tree(alloc: Global, tree: &Tree) -> Result<Option<ChangeFile>, AllocError> {
        match read_structure::<ChangeFileFields>(alloc, &CHANGE_FILE_NAMES, tree)? {
            Some(fields) => Ok(Some(change_file_of(fields))),
            None => Ok(None),
        }
    }

    fn guess(alloc: Global, text: &mut Cursor) -> Result<Option<ChangeFile>, AllocError> {
        match guess_structure::<ChangeFileFields>(alloc, &CHANGE_FILE_NAMES, text)? {
            Some(fields) => Ok(Some(change_file_of(fields))),
            None => Ok(None),
        }
    }

    ghost some_value = { some_change_file };
}

impl Encode for ChangeFile {
    fn put(&self, out: &mut Vec<u8>) -> Result<(), AllocError> {
        put_structure(out, self)
    }
}

impl Row for ChangeFile {
    fn put_fields(&self, out: &mut Vec<u8>) -> Result<(), AllocError> {
        put_both(out, b"path", &self.path, b"action", &self.action)?;
        put_both(out, b"usage", &self.usage, b"origin", &self.origin)?;
        put_field(out, b"version", &self.frozen)?;
        Ok(())
    }
}

// The names of its fields.
const EVIDENCE_NAMES: [&[u8]; 8] = [
    b"ground", b"kind", b"path", b"status", b"clean", b"subject", b"when", b"who",
];

type OutcomeFields = Then<bool, Then<[u8; 32], Then<u64, Then<User, End>>>>;

type EvidenceFields = Then<Ground, Then<Kind, Then<Option<Path>, Then<u16, OutcomeFields>>>>;

fn evidence_of(fields: EvidenceFields) -> Evidence
    ensures { result ≡ evidence_from fields }
{
    let Then {
        first: during,
        rest,
    } = fields;
    let Then { first: kind, rest } = rest;
    let Then { first: path, rest } = rest;
    let Then {
        first: status,
        rest,
    } = rest;
    let Then { first: clean, rest } = rest;
    let Then {
        first: subject,
        rest,
    } = rest;
    let Then { first: when, rest } = rest;
    let Then {
        first: who,
        rest: End,
    } = rest;
    Evidence {
        during,
        kind,
        path,
        status,
        clean,
        subject,
        when,
        who,
    }
}

// Which run it was, and how it ended.
fn put_run(out: &mut Vec<u8>, run: &Evidence) -> Result<(), AllocError>
    ensures put { OnOk result (ArePut spaced out.old.items out.new.items (run_fields run.now)) }
    ensures fits { OnOk result (FitsRun run.now) }
{
    put_both(out, b"ground", &run.during, b"kind", &run.kind)?;
    put_both(out, b"path", &run.path, b"status", &run.status)?;
    Ok(())
}

// What was tried, by whom and when.
fn put_outcome(out: &mut Vec<u8>, run: &Evidence) -> Result<(), AllocError>
    ensures put { OnOk result (ArePut spaced out.old.items out.new.items (outcome_fields run.now)) }
    ensures fits { OnOk result (FitsOutcome run.now) }
{
    put_both(out, b"clean", &run.clean, b"subject", &run.subject)?;
    put_both(out, b"when", &run.when, b"who", &run.who)?;
    Ok(())
}

impl Decode for Evidence {
    ghost use Rattle.ae_schema.specs.Spelled.{evidence_row};
    ghost use Rattle.ae_schema.specs.Fits.{FitsEvidence};
    ghost use Rattle.ae_schema.specs.SomeValues.{some_evidence};

    ghost spelled = { evidence_row };

    ghost Fits = { FitsEvidence };

    fn of_tree(alloc: Global, tree: &Tree) -> Result<Option<Evidence>, AllocError> {
        match read_structure::<EvidenceFields>(alloc, &EVIDENCE_NAMES, tree)? {
            Some(fields) => Ok(Some(evidence_of(fields))),
            None => Ok(None),
        }
    }

    fn guess(alloc: Global, text: &mut Cursor) -> Result<Option<Evidence>, AllocError> {
        match guess_structure::<EvidenceFields>(alloc, &EVIDENCE_NAMES, text)? {
            Some(fields) => Ok(Some(evidence_of(fields))),
            None => Ok(None),
        }
    }

    ghost some_value = { some_evidence };
}

impl Encode for Evidence {
    fn put(&self, out: &mut Vec<u8>) -> Result<(), AllocError> {
        put_structure(out, self)
    }
}

impl Row for Evidence {
    fn put_fields(&self, out: &mut Vec<u8>) -> Result<(), AllocError> {
        put_run(out, self)?;
        put_outcome(out, self)?;
        Ok(())
    }
}

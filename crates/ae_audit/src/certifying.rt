// The deltas are certified.
ghost use Rattle.std.specs.Prelude.{◌≡◌, ◌-◌, IfOk, IfErr, Some, Err, IsSomeAnd};
ghost use Rattle.ae_base.specs.Rows.{text_cmp};
ghost use Rattle.ae_types.specs.Found.{change_at, file_path};
ghost use Rattle.ae_types.specs.Ordered.{Ascends};
ghost use Rattle.ae_types.specs.Runs.{run_cmp, run_of};
ghost use Rattle.ae_types.specs.Trees.{tree_of};
ghost use Rattle.ae_evidence.specs.Digest.{digest_rows};
ghost use Rattle.ae_audit.specs.declared.stop.Stop.TheVariants.{Memory};
ghost use Rattle.ae_audit.specs.Steps.{RunsFound, IsFoundBy, IsFound, IsCertified};

use crate::counting::{all_count, has_tests};
use crate::required::required_over;
use crate::review::mark_of;
use crate::stop::Stop;
use crate::{CertificateRow, CertificateRows};
use ae_base::Delta;
use ae_evidence::digest_rows;
use ae_files::tree_at;
use ae_types::{Change, DeltaRow, State, TreeRow};
use std::alloc::{AllocError, Global};

// How many runs the change needed over the tree before, where each has a row that counts for the tree of this digest, and the
// change has a test or is exempt.
fn runs_found(
    alloc: Global,
    change: &Change,
    before: &[TreeRow],
    tree: &[u8; 32],
) -> Result<Option<usize>, AllocError>
    requires evidence { Ascends run_cmp run_of change.now.evidence }
    requires files { Ascends text_cmp file_path change.now.files }
    ensures { IfOk result (λ runs. RunsFound change.now before.now tree.now runs) }
{
    let runs = required_over(alloc, before, change)?;
    let has_test = change.attributes.test_exempt || has_tests(change);
    if has_test && all_count(change, tree, runs.as_slice()) {
        Ok(Some(runs.len()))
    } else {
        Ok(None)
    }
}

// The row of a delta of this change, whose tree has this digest and came over that one.
fn certificate_by(
    alloc: Global,
    made: &DeltaRow,
    change: &Change,
    before: &[TreeRow],
    tree: [u8; 32],
) -> Result<Option<CertificateRow>, Stop>
    requires evidence { Ascends run_cmp run_of change.now.evidence }
    requires files { Ascends text_cmp file_path change.now.files }
    ensures row { IfOk result (λ row. IsFoundBy made.now change.now before.now tree row) }
    ensures memory { IfErr result (λ stop. stop ≡ Memory) }
{
    let Some(runs) = runs_found(alloc, change, before, &tree)? else {
        return Ok(None);
    };
    let Ok(runs) = u32::try_from(runs) else {
        return Err(Stop::Memory);
    };
    let Some(mark) = mark_of(alloc, change)? else {
        return Ok(None);
    };
    Ok(Some(CertificateRow {
        delta: made.delta,
        change: made.change,
        tree,
        runs,
        mark,
    }))
}

// The row of a delta, where it is shown.
fn certificate(
    alloc: Global,
    state: &State,
    made: &DeltaRow,
) -> Result<Option<CertificateRow>, Stop>
    ensures row { IfOk result (λ row. IsFound state.now made.now row) }
    ensures memory { IfErr result (λ stop. stop ≡ Memory) }
{
    state.note_sound();
    let before = Delta::of(made.delta.number().saturating_sub(1));
    let before = tree_at(alloc, state, before)?;
    let tree = tree_at(alloc, state, made.delta)?;
    let digest = digest_rows(&tree);
    match state.change(made.change) {
        Some(change) => certificate_by(alloc, made, change, before.as_slice(), digest),
        None => Ok(None),
    }
}

/// The rows of all deltas, where each is shown.
pub(crate) fn certify(alloc: Global, state: &State) -> Result<CertificateRows, Stop>
    ensures { IsCertified state.now state.now.project.deltas result }
{
    let mut rows = CertificateRows::new(alloc);
    for made in state.project().deltas.as_slice() {
        match certificate(alloc, state, made)? {
            Some(row) => rows.push(row)?,
            None => return Err(Stop::NotShown(made.delta)),
        }
    }
    Ok(rows)
}

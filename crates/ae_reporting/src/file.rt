// The file of a report.
ghost use Rattle.std.specs.Prelude.{◌≡◌, ◌≤◌, ◌⊎◌, IfOk, IfErr};
ghost use Rattle.ae_base.specs.declared.outcome.Outcome.TheVariants.{Refused, Memory};
ghost use Rattle.ae_base.specs.declared.refusal.Refusal.TheVariants.{NoAttributes};
ghost use Rattle.ae_outside.specs.declared.dir.Content.TheVariants.{Bytes};
ghost use Rattle.ae_exec.specs.Devices.{SiteFailed};
ghost use Rattle.ae_reporting.specs.Answers.{FailsToRead, file_at};

use ae_base::limits::MOST_ATTRIBUTE_BYTES;
use ae_base::{Outcome, Path, Refusal, Text, Which};
use ae_outside::{Content, Dir, Site, SiteError};
use std::alloc::Global;

// There is no file of this path; or there is no memory to say so.
fn no_file(alloc: Global, path: &Path) -> Outcome
    ensures { (result ≡ Refused (NoAttributes path.now)) ⊎ (result ≡ Memory) }
{
    match path.copy(alloc) {
        Ok(path) => Outcome::Refused(Refusal::NoAttributes(path)),
        Err(_) => Outcome::Memory,
    }
}

/// The bytes of the file of a report, of at most 65,536.
pub(crate) fn read_file<S: Site>(alloc: Global, site: &mut S, path: &Path) -> Result<Text, Outcome>
    ensures bytes { IfOk result (λ bytes. S.tells → file_at path.now (S.state site.old) ≡ Bytes bytes) }
    ensures fails { IfErr result (FailsToRead S.tells path.now (file_at path.now (S.state site.old))
        (SiteFailed S.Site site.old site.new)) }
    ensures same { S.tells → S.state site.new ≡ S.state site.old }
    ensures later { S.faults site.old ≤ S.faults site.new }
{
    match site.read(alloc, Dir::Here, path, MOST_ATTRIBUTE_BYTES) {
        Ok(Content::Bytes(bytes)) => Ok(bytes),
        Ok(Content::Absent) => Err(no_file(alloc, path)),
        Ok(Content::TooLong) => Err(Outcome::Refused(Refusal::Limit(
            Which::AttributeBytes,
            MOST_ATTRIBUTE_BYTES as u64,
        ))),
        Err(SiteError::Failed) => Err(Outcome::SiteFault),
        Err(SiteError::Memory) => Err(Outcome::Memory),
    }
}

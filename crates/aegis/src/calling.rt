// A call of the program: of the project in the current folder, or of a branch of it.
ghost use Rattle.std.specs.Prelude.{◌≡◌, ◌≤◌, ℕ, drop, if◌then◌else◌, map, string_bytes, IfOk};
ghost use Rattle.ae_branch_words.specs.declared.words.BranchWords.{BranchWords};
ghost use Rattle.ae_script.specs.Step.{may_give};
ghost use Rattle.ae_session.specs.Called.{IsProjectCall};
ghost use Rattle.ae_session.specs.Devices.{disk_of, sink_of, site_of, source_of, standard, workspace};
ghost use Rattle.ae_session.specs.Request.{asked};
ghost use Rattle.ae_telling.specs.Telling.{use_of_sink};
ghost use Rattle.aegis.specs.Top.{HasBadWord, IsBadTold, IsBranchCall, NamesNoBranch, SaysCommand, SaysOfBranch};

use ae_base::limits::LAST_MOMENT;
use ae_base::{Outcome, User};
use ae_branch::branch;
use ae_branch_words::{Rest, branch_words};
use ae_outside::{Disk, Sink, Site, Source};
use ae_session::aegis;
use ae_telling::{tell_bad_words, tell_memory};
use ae_words::WordsError;
use std::alloc::{AllocError, Global};

// Which of the words of a branch is the first bad one: a user or a moment that isn't one comes before all words.
fn bad_place(alloc: Global, who: &str, now: u64, place: u32) -> Result<u32, AllocError>
    ensures { IfOk result (λ first. first ≡ (if may_give who.now now then place else 0)) }
{
    if User::read(alloc, who.as_bytes())?.is_none() || now > LAST_MOMENT {
        return Ok(0);
    }
    Ok(place)
}

// Tells which of the words of a branch is bad.
fn tell_bad<E: Sink>(alloc: Global, who: &str, now: u64, place: u32, err: &mut E) -> Outcome
    ensures told { IsBadTold who.now now place (use_of_sink E.Sink err.old err.new) result }
    ensures later { E.faults err.old ≤ E.faults err.new }
{
    match bad_place(alloc, who, now, place) {
        Ok(place) => tell_bad_words(alloc, place, err),
        Err(_) => tell_memory(err),
    }
}

// The words of a command in a branch: those after the branch's name.
fn command_in_branch(words: &[String]) -> &[String]
    ensures { map string_bytes result.now ≡ drop 2 (map string_bytes words.now) }
{
    match words {
        [_, _, command @ ..] => command,
        _ => &[],
    }
}

/// Does all that the program does: where words name a branch, in that branch, or between it and the project, which is begun or
/// ended; else in the project, the trunk.
pub fn top<
    TrunkDisk: Disk,
    TrunkSite: Site,
    BranchDisk: Disk,
    BranchSite: Site,
    I: Source,
    O: Sink,
    E: Sink,
>(
    alloc: Global,
    words: &[String],
    who: &str,
    now: u64,
    trunk: &mut TrunkDisk,
    trunk_site: &mut TrunkSite,
    disk: &mut BranchDisk,
    site: &mut BranchSite,
    input: &mut I,
    out: &mut O,
    err: &mut E,
) -> Outcome
    // Where the words name no branch the call is one of the project in the current folder, as `aegis` does it.
    ensures trunk { let words = map string_bytes words.now in NamesNoBranch words →
        IsProjectCall (asked words who.now now)
        (workspace (disk_of TrunkDisk.Disk trunk.old trunk.new)
        (site_of TrunkSite.Site trunk_site.old trunk_site.new))
        (standard (source_of I.Source input.old input.new)
        (sink_of O.Sink out.old out.new) (sink_of E.Sink err.old err.new)) result }
    // Where they name a branch and say a command, the call is one of that branch, by the words after its name.
    ensures branch { let words = map string_bytes words.now in SaysCommand words →
        IsProjectCall (asked (drop 2 words) who.now now)
        (workspace (disk_of BranchDisk.Disk disk.old disk.new)
        (site_of BranchSite.Site site.old site.new))
        (standard (source_of I.Source input.old input.new)
        (sink_of O.Sink out.old out.new) (sink_of E.Sink err.old err.new)) result }
    // The other of the two isn't called.
    ensures trunk_alone { NamesNoBranch (map string_bytes words.now) → (disk.new ≡ disk.old) × (site.new ≡ site.old) }
    ensures branch_alone { SaysCommand (map string_bytes words.now) →
        (trunk.new ≡ trunk.old) × (trunk_site.new ≡ trunk_site.old) }
    // Where they begin the branch or end it, the call is between the two.
    ensures between { let words = map string_bytes words.now in (said : BranchWords) → SaysOfBranch words said →
        IsBranchCall (asked words who.now now) said
        (workspace (disk_of TrunkDisk.Disk trunk.old trunk.new)
        (site_of TrunkSite.Site trunk_site.old trunk_site.new))
        (workspace (disk_of BranchDisk.Disk disk.old disk.new)
        (site_of BranchSite.Site site.old site.new))
        (use_of_sink E.Sink err.old err.new) result }
    ensures quiet { (said : BranchWords) → SaysOfBranch (map string_bytes words.now) said →
        (input.new ≡ input.old) × (out.new ≡ out.old) }
    // And where a word of it is bad its place is told, and nothing else is called.
    ensures bad { (place : ℕ) → HasBadWord (map string_bytes words.now) place →
        IsBadTold who.now now place (use_of_sink E.Sink err.old err.new) result }
    ensures untouched { (place : ℕ) → HasBadWord (map string_bytes words.now) place →
        (trunk.new ≡ trunk.old) × (trunk_site.new ≡ trunk_site.old) × (disk.new ≡ disk.old) × (site.new ≡ site.old) ×
        (input.new ≡ input.old) × (out.new ≡ out.old) }
    ensures later { E.faults err.old ≤ E.faults err.new }
{
    let said = match branch_words(alloc, words) {
        Ok(Some(said)) => said,
        Ok(None) => {
            return aegis(alloc, words, who, now, trunk, trunk_site, input, out, err);
        }
        Err(WordsError::Bad(place)) => return tell_bad(alloc, who, now, place, err),
        Err(WordsError::Memory) => return tell_memory(err),
    };
    if said.rest == Rest::Plain {
        let command = command_in_branch(words);
        return aegis(alloc, command, who, now, disk, site, input, out, err);
    }
    branch(alloc, &said, who, now, trunk, trunk_site, disk, site, err)
}

// Laws of verdicts.
ghost use Rattle.std.specs.Prelude.{◌≡◌, ℕ, List, Option, Some};
ghost use Rattle.ae_base.specs.declared.refusal.Refusal.{Refusal};
ghost use Rattle.ae_types.specs.Observation.{Observation};
ghost use Rattle.ae_words.specs.declared.command.Command.{Command};
ghost use Rattle.ae_machine.specs.declared.verdict.Verdict.TheVariants.{Refuse};
ghost use Rattle.ae_machine.specs.declared.view.View.{View};
ghost use Rattle.ae_machine.specs.Accepted.{AcceptedApply, AcceptedStarts, AcceptedFollow, CalledApply, CalledFollow, FirstFollow, LegalStands, LegalIsBlameless};
ghost use Rattle.ae_machine.specs.Call.{Placing};
ghost use Rattle.ae_machine.specs.Evident.{LegalIsEvident};
ghost use Rattle.ae_laws.specs.Examples.{first_baseline, passed_by_developer, passed_by_anybody, ended_after_pass, left_unclean, not_built, begun_again, without_test, waived_and_passed, waived_baseline, waived_unset};
ghost use Rattle.ae_laws.specs.Examples.{added_before, created_twice, developed_by_anybody, developer_let, integrated_by_anybody, integrated_by_developer, integrated_by_reviewer, passed_by_other, update_lost, updated};
ghost use Rattle.ae_laws.specs.Examples.{gave_up, made_twice, removed_later, role_by_developer, settings_by_developer};
ghost use Rattle.ae_machine.specs.Facts.{LegalHasFacts};
ghost use Rattle.ae_machine.specs.Laws.{LegalIsSound, LegalIsProvided, Reverses};
ghost use Rattle.ae_machine.specs.Partly.{PartsAnswer, PartsAreCalled, PartsAreFollowed};
ghost use Rattle.ae_machine.specs.Provenance.{Provenance};
ghost use Rattle.ae_machine.specs.Released.{LegalIsReleased};
ghost use Rattle.ae_machine.specs.Rules.{PathsWithRule, PathsEverRule, CandidateRule, BaseTreeRule};
ghost use Rattle.ae_laws.specs.Administrators.{AreByAdministrators, LegalIsByAdministrators};
ghost use Rattle.ae_laws.specs.Current.{LegalLosesNone, LosesNone};
ghost use Rattle.ae_laws.specs.Integrators.{ArePeopleRight, LegalHasPeople};
ghost use Rattle.ae_laws.specs.Lasting.{DeltasLast};
ghost use Rattle.ae_laws.specs.Reasons.{ReasonsAreTold};
ghost use Rattle.ae_laws.specs.Sizes.{LegalHasSizes};
ghost use Rattle.ae_laws.specs.Statuses.{LegalHasStatuses};
ghost use Rattle.ae_machine.specs.TypedPaths.{LegalHasPaths, PathsAskedAre};
ghost use Rattle.ae_machine.specs.Verdict.{refused_before, verdict};

/// Where the conditions that ask nothing of the directories refuse a command, that refusal is the answer, whatever it sees.
pub fn note_refused_before()
    ensures { (places : Placing) (o : Option Observation) (bytes : ℕ → List ℕ) (command : Command) (who : List ℕ) (when : ℕ) (view : View) (refusal : Refusal)
        → refused_before o command who ≡ Some refusal → verdict places o bytes command who when view ≡ Refuse refusal }
{}

/// Each event of an accepted command applies where those before it stand, and the first of all makes a project; of every
/// function, where what the command sees fits what stands.
pub fn accepted_events_apply()
    ensures apply { AcceptedApply }
    ensures called { CalledApply }
    ensures start { AcceptedStarts }
{}

/// What stands after an accepted command is what its events make of what stood before, and keeps the rules of the records.
pub fn accepted_events_follow()
    ensures follow { AcceptedFollow }
    ensures called { CalledFollow }
    ensures first { FirstFollow }
{}

/// After a legal log a project stands, unless the log is empty; the project keeps the rules of the records, and no state file
/// of it is blamed.
pub fn legal_logs_are_sound()
    ensures stands { LegalStands }
    ensures sound { LegalIsSound }
    ensures blameless { LegalIsBlameless }
{}

/// What every command keeps of each change: what is frozen are its files; while it is integrated the baseline and its candidate
/// are as they were when that began, and each run since then is on them; a pass that stands is a review. At most one is integrated.
pub fn legal_logs_have_facts()
    ensures { LegalHasFacts }
{}

/// Each run of a legal log has a status below 512: a code, or 256 and a signal. So each can be recorded.
pub fn legal_runs_have_statuses()
    ensures { LegalHasStatuses }
{}

/// The reason that a command gives goes with an event that adds a row to a history, and no other event has one.
pub fn reasons_are_told()
    ensures { ReasonsAreTold }
{}

/// The paths that stand after a legal log are paths, and so are those whose files a command reads.
pub fn legal_logs_have_paths()
    ensures stand { LegalHasPaths }
    ensures asked { PathsAskedAre }
{}

/// In a legal log each baseline is provided for: built and tested as required, and reviewed.
pub fn legal_logs_are_provided()
    ensures { LegalIsProvided }
{}

/// Before each integration that passed, the state had a row for every run that was required, with the wanted status, clean, and of
/// the candidate's digest; it is that of the log's latest run, which ran on the bytes of the candidate's versions.
pub fn legal_logs_are_evident()
    ensures { LegalIsEvident }
{}

/// A file of the baseline comes from an integration: the last entry of its path in the file table names a delta, and the
/// integration that made the delta had the file in its candidate, with the same bytes.
pub fn released_files_are_traced()
    ensures { LegalIsReleased }
{}

/// An accepted command that is undone at once, by the same user, leaves the log the same; the undo of a removal may be refused
/// instead where paths clashed before.
pub fn commands_are_reversed()
    ensures { Reverses }
{}

/// What the definitions that put row after row make, said by rules: the paths that the project would have with a change and those
/// that it has or had, the candidate, and the baseline with a change's tests over it. Each ascends where what it is made of does.
pub fn trees_are_by_rules()
    ensures paths { PathsWithRule }
    ensures ever { PathsEverRule }
    ensures candidate { CandidateRule }
    ensures base { BaseTreeRule }
{}

/// What provenance asks is decided by value: a first baseline has it, and lacks it where its developer passed it, though the
/// settings don't let him, or somebody who is no reviewer; where its development ended again after the pass; where a run left other
/// files than it found; where it wasn't built in this integration, or had no test. One whose review the settings waived has it, and
/// lacks it where they didn't, or where it was passed all the same.
pub fn provenance_is_decided_by_value()
    ensures first { Provenance first_baseline }
    ensures developer { Provenance passed_by_developer → ⊥ }
    ensures reviewer { Provenance passed_by_anybody → ⊥ }
    ensures later_end { Provenance ended_after_pass → ⊥ }
    ensures clean { Provenance left_unclean → ⊥ }
    ensures build { Provenance not_built → ⊥ }
    ensures older { Provenance begun_again → ⊥ }
    ensures test { Provenance without_test → ⊥ }
    ensures waived { Provenance waived_baseline }
    ensures set { Provenance waived_unset → ⊥ }
    ensures passed { Provenance waived_and_passed → ⊥ }
{}

/// A command is answered on the part of what stands that it looks at as on the whole: it is refused alike, makes the same events,
/// and asks the same of the directories and of the versions.
pub fn parts_are_answered()
    ensures answer { PartsAnswer }
    ensures called { PartsAreCalled }
{}

/// What the events of an accepted command make of the part that it looks at is the part of what they make of the whole.
pub fn parts_are_followed()
    ensures { PartsAreFollowed }
{}

/// A released baseline never changes: whatever follows a log, each delta that it has keeps its files, with their usages, versions
/// and bytes, and who made it and when.
pub fn deltas_last()
    ensures { DeltasLast }
{}

/// Nobody releases alone, unless the settings say so: who passes an integration began it, was an integrator then, and another than
/// the developer and the reviewer of the change, unless the settings let these integrate; and a developer developed it.
pub fn legal_logs_have_people()
    ensures { LegalHasPeople }
{}

/// No update is lost: at each integration that passes a file of the change began from the edit that its path has, no delta has
/// changed the path since the file was added to the change, and where the file is new the baseline has none.
pub fn legal_logs_lose_none()
    ensures { LegalLosesNone }
{}

/// After a legal log the texts of each change have at most 65,536 bytes each; and a completed change has a delta and a file, and what
/// the delta made of its files has at most 67,108,864 bytes together.
pub fn legal_logs_have_sizes()
    ensures { LegalHasSizes }
{}

/// What these laws ask is decided by value. A first baseline has the right people, and so has one that its developer integrates, as the
/// settings let him. They aren't right where another passes it than who began its integration, or who is no integrator; where its
/// developer integrates it, or its reviewer, though the settings don't let them; or where somebody developed it who is no developer.
/// No update is lost where a file began from the edit that a delta made. One is where it began from an older edit, or from what the path
/// had before a delta changed it, or where the baseline has a file that is created.
pub fn people_and_updates_are_decided_by_value()
    ensures first { ArePeopleRight first_baseline }
    ensures settings { ArePeopleRight developer_let }
    ensures other { ArePeopleRight passed_by_other → ⊥ }
    ensures anybody { ArePeopleRight integrated_by_anybody → ⊥ }
    ensures developer { ArePeopleRight integrated_by_developer → ⊥ }
    ensures reviewer { ArePeopleRight integrated_by_reviewer → ⊥ }
    ensures developed { ArePeopleRight developed_by_anybody → ⊥ }
    ensures kept { LosesNone updated }
    ensures origin { LosesNone update_lost → ⊥ }
    ensures touched { LosesNone added_before → ⊥ }
    ensures created { LosesNone created_twice → ⊥ }
{}

/// Settings and roles are changed by administrators alone: in a legal log, who changes the attributes of the project or of a change, or
/// a role, is an administrator then. Who removes several administrators at once may be one of them. A project is made where none is.
pub fn legal_logs_are_by_administrators()
    ensures { LegalIsByAdministrators }
{}

/// What that asks is decided by value. A first baseline has it, and so has an administrator who removes herself and another at once. It is
/// lacking where a developer gives himself a role, or changes the settings; where who removed herself removes another later; and
/// where a project is made over one.
pub fn administrators_are_decided_by_value()
    ensures first { AreByAdministrators first_baseline }
    ensures given_up { AreByAdministrators gave_up }
    ensures role { AreByAdministrators role_by_developer → ⊥ }
    ensures settings { AreByAdministrators settings_by_developer → ⊥ }
    ensures later { AreByAdministrators removed_later → ⊥ }
    ensures twice { AreByAdministrators made_twice → ⊥ }
{}

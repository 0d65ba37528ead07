// What the program says of a refusal, and of the words of a branch.
ghost use Rattle.std.specs.Prelude.{◌≡◌, IsSome};
ghost use Rattle.aegis.specs.Help.{Names};

use ae_base::read_number;
use ae_words::matches_option;

// The refusals are numbered from 1 to this.
const LAST_REFUSAL: u64 = 47;

// So many digits a number of them has at most.
const MOST_DIGITS: usize = 2;

/// What help is asked about that is no function.
#[derive(Clone, Copy, Debug, PartialEq, Eq)]
pub enum Topic {
    /// The refusal of this number.
    Refusal(u64),
    /// Commands in a branch.
    Branch,
    /// The begin of one.
    Begin,
    /// The end of one.
    Finish,
}

// A block for each refusal in the order of their numbers, with a `~` between two: what it says, when, and what can be done.
pub(crate) const REFUSALS: &str = "  1   there is no project
      Any command but -npr where there is none. Go to the folder that holds aegis.d, or make a project by -npr NAME.
~  2   the project is there already
      -npr, -gen and -br NAME -begin where there is one. Work in that one, or take another folder or another name.
~  3   that is not this project
      -Project names another. -l pd says the name of the one that is here.
~  4   there is no such change
      -Change names a number that no change has. -l pc lists the changes.
~  5   the change is PHASE
      The function doesn't come in the change's phase (docs/MACHINE.md has a drawing). -l ch -c N says how it came there; -deu,
      -ibu and the other undos go back.
~  6   you are not an administrator
      The function is an administrator's; for -nc and -ncu also where developers may not create changes. -l a lists them: have
      one do it, or give you the role by -na.
~  7   you are not a developer
      The function is a developer's; for -nc and -ncu where developers may create changes. -l d lists them: have one do it, or
      an administrator give you the role by -nd.
~  8   you are not a reviewer
      The function is a reviewer's. -l r lists them: have one do it, or an administrator give you the role by -nrv.
~  9   you are not an integrator
      The function is an integrator's. -l i lists them: have one do it, or an administrator give you the role by -ni.
~  10   the developer is USER
      Another develops the change. Have that user do it, or give it back by -dbu, so that you may begin it.
~  11   the reviewer is REVIEWER
      Another began the review, or passed the change. Have that user do it, or take that back by -rbu or -rpu.
~  12   the integrator is USER
      Another integrates the change. Have that user do it, or give it back by -ibu.
~  13   the developer may not review
      You developed the change, and developer_may_review is false. Have another reviewer do it.
~  14   the developer may not integrate
      You developed the change, and developer_may_integrate is false. Have another integrator do it.
~  15   the reviewer may not integrate
      You passed the change, and reviewer_may_integrate is false. Have another integrator do it.
~  16   user USER has that role
      The role is given to a user who has it. Leave that user out.
~  17   user USER has not that role
      The role is taken from a user who hasn't it. Leave that user out.
~  18   the last administrator stays
      -ra of the only administrator. Give another user the role first, by -na.
~  19   file \"PATH\" is in the change
      -nf, -nt, -rm, and -cp without -OverWriting, of a path that the change has. -l cf -c N lists its files; -cp -ow takes one
      again, and an undo takes it out.
~  20   file \"PATH\" is not in the change so
      An undo of a path that the change hasn't by the function that is undone. -l cf -c N says what it does to each: -nfu or
      -ntu undoes a create, -cpu a modify, -rmu a remove.
~  21   file \"PATH\" is not in the project
      -cp, -rm of a path that isn't in the baseline, or for -cp in the tree of the delta. -l pf lists the baseline; -nf adds a
      new file.
~  22   file \"PATH\" is in the project
      -nf, -nt of a path of the baseline: -cp it. -de: another change made it since. -nfu it, -cp it, put your work into it.
~  23   file \"PATH\" is locked by change CHANGE
      -de while another change holds the path. Wait until that is integrated or goes back; then the file may be out of date.
~  24   file \"PATH\" is of edit ORIGIN, the project has edit EDIT
      -de: another change integrated it since. Keep what you have elsewhere, -cp -ow it, and put your work into it; where the
      project no longer has it (21), -cpu it. -br NAME -fin: the project has changed it since the branch was begun. Take the
      branch's changes one by one, by -br NAME -ds and -dr.
~  25   the change has no files
      -de. Add some, or give the change back by -dbu. -begin: the delta has none; -fin: the branch did nothing after its first
      delta.
~  26   file \"PATH\" is missing
      -b, -t, -de: a file of the change isn't in its directory. Write it, or take it out of the change.
~  27   there is no test
      The group of -t is empty; -de, -ipass: the change has to have a test. -nt one, or have an administrator make the change
      test_exempt by -ca.
~  28   a build of these files is needed
      No build counts for the files as they are: -b. Where a run failed, the log says why; where it fails in an integration,
      -ifail gives the change back.
~  29   test \"PATH\" is needed
      No run of the test counts for the files as they are: -t. Where one failed, the log says why.
~  30   baseline test \"PATH\" is needed
      No run of the test on the baseline counts: -t -bl. It counts where the test fails there, with status 1.
~  31   regression test \"PATH\" is needed
      No run of a test of the baseline counts: -t -reg. Where one failed, the log says why.
~  32   change CHANGE is being integrated
      -ib: wait until that one passes, fails or is given back.
~  33   file \"PATH\" differs from the candidate
      A file of the integrate directory was changed. Put it back, or -ibu and begin again, which fills the directory.
~  34   aegis.conf gives no such command
      -b, -t: there is no aegis.conf, or it doesn't give the command. Write build_command or test_command into it, as a file of
      the change.
~  35   aegis.conf, line LINE
      -b, -t: that line of aegis.conf is wrong. Mend it.
~  36   attributes, line LINE
      That line of the file of attributes is wrong. Mend it.
~  37   the limit LIMIT is NUMBER
      With the command there would be more. Of bytes: end with fewer or smaller files, as two changes; of a history: make a new
      change.
~  38   there is no such delta
      -DELta or -begin names a delta that the project hasn't made. -l phi lists the deltas.
~  39   the version space is full
      -de: pack has no place for the versions. Let changes that wait be integrated or go back: versions that a change gives up
      make room.
~  40   there is no file \"PATH\"
      The file of attributes, or of a report, isn't there, or is a link or a folder. Write it in the folder where you give the
      command.
~  41   file \"PATH\" clashes with a folder
      A path would be a folder on the way to another; the least such path is named. Take yours out, or remove the other; in an
      integration the developer goes back by -deu.
~  42   delta DELTA is not shown
      -aud: its change hasn't a run that it needed, or no test though it isn't exempt, or its records of a review don't fit one
      another. -l ce -c N and -l ch -c N show what the change has; compare the store with a copy.
~  43   report, line LINE
      -rep: the file isn't a report, by what is in that line (docs/REPORTS.md). Mend it.
~  44   report, line LINE: number out of range
      -rep: a sum, a difference, a total or a moment of that line leaves its range. Ask for less there.
~  45   the change set is not understood
      -dr: what was read is the text of no change set. Have it sent again; it may have been cut off. -ds: the record of the
      change is beyond the limits of a text.
~  46   this is not a branch
      -br NAME -fin of a project that no begin made: it has no file trunk. Only what -br NAME -begin D began is ended so.
~  47   change CHANGE of the branch is not completed
      -br NAME -fin: integrate that change there, or give it up by -dbu and -ncu.
";

const BRANCH: &str = "  -BRanch NAME -FUNCTION WORD..
      Does a command in the branch, with its other words: a branch is a project of its own in aegis.d/branch.NAME, with roles, changes
      and deltas of its own. Files of attributes and reports are those of the current folder. -BRanch NAME -BEGin N begins one, and
      -BRanch NAME -FINish ends it.
";

const BEGIN: &str = "  -BRanch NAME -BEGin N
      Begins a branch from delta N: a project of its own, whose change 10 creates the files that the delta has. Who is an
      administrator and a developer asks, and develops that change: build it, test it, and have it integrated as any other. Leave
      its files as they are, since it isn't brought to the project.
";

const FINISH: &str = "  -BRanch NAME -FINish
      Makes a change of the project of what the branch did after its first delta, in aegis.d/develop.N. Each change of the branch is
      completed, and the project hasn't changed one of these paths since the branch was begun. Who asks is as for -nc and -db. The
      branch stays as it is.
";

// The text of the refusal of this number.
fn refusal(number: u64) -> &'static str {
    let before = usize::try_from(number.saturating_sub(1)).unwrap_or(0);
    REFUSALS.split('~').nth(before).unwrap_or("")
}

impl Topic {
    /// What a name names that is no function's.
    pub fn read(name: &[u8]) -> Option<Topic>
        ensures named { (topic : _) → result ≡ Some topic → Names topic name.now }
        ensures read { (topic : _) → Names topic name.now → IsSome result }
    {
        if let Some(number) = read_number(MOST_DIGITS, 1, LAST_REFUSAL, name) {
            return Some(Topic::Refusal(number));
        }
        if matches_option(b"BRanch", name) {
            return Some(Topic::Branch);
        }
        if matches_option(b"BEGin", name) {
            return Some(Topic::Begin);
        }
        if matches_option(b"FINish", name) {
            return Some(Topic::Finish);
        }
        None
    }

    /// What is said of it.
    pub fn text(self) -> &'static str {
        match self {
            Topic::Refusal(number) => refusal(number),
            Topic::Branch => BRANCH,
            Topic::Begin => BEGIN,
            Topic::Finish => FINISH,
        }
    }
}

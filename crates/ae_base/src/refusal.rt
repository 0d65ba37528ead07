// Why a command is refused.
ghost use Rattle.std.specs.Prelude.{◌≡◌, ◌++◌, IfOk, Some};
ghost use Rattle.ae_base.specs.Refusals.{number_of, text_of, message_of, file_text, subject_text};

use crate::{ChangeNo, Delta, Path, Phase, User, Which};
use std::alloc::{AllocError, Global};
use std::fmt;

/// Why a command is refused. Each has a number, and a message for the user.
#[derive(Drop)]
pub enum Refusal {
    NoProject,
    ProjectExists,
    WrongProject,
    NoSuchChange,
    WrongPhase(Phase),
    NotAdministrator,
    NotDeveloper,
    NotReviewer,
    NotIntegrator,
    NotThisDeveloper(User),
    NotThisReviewer(Option<User>),
    NotThisIntegrator(User),
    DeveloperMayNotReview,
    DeveloperMayNotIntegrate,
    ReviewerMayNotIntegrate,
    UserThere(User),
    UserNotThere(User),
    LastAdministrator,
    FileInChange(Path),
    FileNotInChange(Path),
    FileNotInProject(Path),
    FileInProject(Path),
    FileLocked(Path, ChangeNo),
    OutOfDate(Path, u32, u32),
    NoFiles,
    FileMissing(Path),
    NoTest,
    BuildNeeded,
    TestNeeded(Path),
    BaselineTestNeeded(Path),
    RegressionNeeded(Path),
    IntegrationInProgress(ChangeNo),
    Differs(Path),
    NoCommand,
    BadConfig(u32),
    BadAttributes(u32),
    Limit(Which, u64),
    NoSuchDelta,
    SpaceFull,
    NoAttributes(Path),
    PathClash(Path),
    NotShown(Delta),
    BadReport(u32),
    ReportNumber(u32),
    BadBundle,
    NotABranch,
    BranchBusy(ChangeNo),
}

impl Refusal {
    /// Its number, 1 to 47.
    pub fn number(&self) -> u8
        ensures { result ≡ number_of self.now }
    {
        match self {
            Refusal::NoProject => 1,
            Refusal::ProjectExists => 2,
            Refusal::WrongProject => 3,
            Refusal::NoSuchChange => 4,
            Refusal::WrongPhase(_) => 5,
            Refusal::NotAdministrator => 6,
            Refusal::NotDeveloper => 7,
            Refusal::NotReviewer => 8,
            Refusal::NotIntegrator => 9,
            Refusal::NotThisDeveloper(_) => 10,
            Refusal::NotThisReviewer(_) => 11,
            Refusal::NotThisIntegrator(_) => 12,
            Refusal::DeveloperMayNotReview => 13,
            Refusal::DeveloperMayNotIntegrate => 14,
            Refusal::ReviewerMayNotIntegrate => 15,
            Refusal::UserThere(_) => 16,
            Refusal::UserNotThere(_) => 17,
            Refusal::LastAdministrator => 18,
            Refusal::FileInChange(_) => 19,
            Refusal::FileNotInChange(_) => 20,
            Refusal::FileNotInProject(_) => 21,
            Refusal::FileInProject(_) => 22,
            Refusal::FileLocked(_, _) => 23,
            Refusal::OutOfDate(_, _, _) => 24,
            Refusal::NoFiles => 25,
            Refusal::FileMissing(_) => 26,
            Refusal::NoTest => 27,
            Refusal::BuildNeeded => 28,
            Refusal::TestNeeded(_) => 29,
            Refusal::BaselineTestNeeded(_) => 30,
            Refusal::RegressionNeeded(_) => 31,
            Refusal::IntegrationInProgress(_) => 32,
            Refusal::Differs(_) => 33,
            Refusal::NoCommand => 34,
            Refusal::BadConfig(_) => 35,
            Refusal::BadAttributes(_) => 36,
            Refusal::Limit(_, _) => 37,
            Refusal::NoSuchDelta => 38,
            Refusal::SpaceFull => 39,
            Refusal::NoAttributes(_) => 40,
            Refusal::PathClash(_) => 41,
            Refusal::NotShown(_) => 42,
            Refusal::BadReport(_) => 43,
            Refusal::ReportNumber(_) => 44,
            Refusal::BadBundle => 45,
            Refusal::NotABranch => 46,
            Refusal::BranchBusy(_) => 47,
        }
    }

    // What it says: a text, what it names, and a text after that.
    fn wording(&self) -> (&'static str, Subject<'_>, &'static str)
        ensures { result.0.now ++ subject_text result.1 ++ result.2.now ≡ text_of self.now }
    {
        match self {
            Refusal::NoProject => ("there is no project", Subject::Nothing, ""),
            Refusal::ProjectExists => ("the project is there already", Subject::Nothing, ""),
            Refusal::WrongProject => ("that is not this project", Subject::Nothing, ""),
            Refusal::NoSuchChange => ("there is no such change", Subject::Nothing, ""),
            Refusal::WrongPhase(phase) => ("the change is ", Subject::Phase(*phase), ""),
            Refusal::NotAdministrator => ("you are not an administrator", Subject::Nothing, ""),
            Refusal::NotDeveloper => ("you are not a developer", Subject::Nothing, ""),
            Refusal::NotReviewer => ("you are not a reviewer", Subject::Nothing, ""),
            Refusal::NotIntegrator => ("you are not an integrator", Subject::Nothing, ""),
            Refusal::NotThisDeveloper(user) => ("the developer is ", Subject::User(user), ""),
            Refusal::NotThisReviewer(Some(user)) => ("the reviewer is ", Subject::User(user), ""),
            Refusal::NotThisReviewer(None) => ("the reviewer is -", Subject::Nothing, ""),
            Refusal::NotThisIntegrator(user) => ("the integrator is ", Subject::User(user), ""),
            Refusal::DeveloperMayNotReview => (
                "the developer may not review",
                Subject::Nothing,
                "",
            ),
            Refusal::DeveloperMayNotIntegrate => (
                "the developer may not integrate",
                Subject::Nothing,
                "",
            ),
            Refusal::ReviewerMayNotIntegrate => (
                "the reviewer may not integrate",
                Subject::Nothing,
                "",
            ),
            Refusal::UserThere(user) => ("user ", Subject::User(user), " has that role"),
            Refusal::UserNotThere(user) => ("user ", Subject::User(user), " has not that role"),
            Refusal::LastAdministrator => ("the last administrator stays", Subject::Nothing, ""),
            Refusal::FileInChange(path) => ("", Subject::File(path), " is in the change"),
            Refusal::FileNotInChange(path) => ("", Subject::File(path), " is not in the change so"),
            Refusal::FileNotInProject(path) => ("", Subject::File(path), " is not in the project"),
            Refusal::FileInProject(path) => ("", Subject::File(path), " is in the project"),
            Refusal::FileLocked(path, change) => ("", Subject::Lock(path, change), ""),
            Refusal::OutOfDate(path, origin, edit) => (
                "",
                Subject::Edits(path, *origin, *edit),
                "",
            ),
            Refusal::NoFiles => ("the change has no files", Subject::Nothing, ""),
            Refusal::FileMissing(path) => ("", Subject::File(path), " is missing"),
            Refusal::NoTest => ("there is no test", Subject::Nothing, ""),
            Refusal::BuildNeeded => ("a build of these files is needed", Subject::Nothing, ""),
            Refusal::TestNeeded(path) => ("test \"", Subject::Path(path), "\" is needed"),
            Refusal::BaselineTestNeeded(path) => (
                "baseline test \"",
                Subject::Path(path),
                "\" is needed",
            ),
            Refusal::RegressionNeeded(path) => (
                "regression test \"",
                Subject::Path(path),
                "\" is needed",
            ),
            Refusal::IntegrationInProgress(change) => (
                "change ",
                Subject::Change(change),
                " is being integrated",
            ),
            Refusal::Differs(path) => ("", Subject::File(path), " differs from the candidate"),
            Refusal::NoCommand => ("aegis.conf gives no such command", Subject::Nothing, ""),
            Refusal::BadConfig(line) => ("aegis.conf, line ", Subject::Line(*line), ""),
            Refusal::BadAttributes(line) => ("attributes, line ", Subject::Line(*line), ""),
            Refusal::Limit(which, number) => ("the limit ", Subject::Limit(*which, *number), ""),
            Refusal::NoSuchDelta => ("there is no such delta", Subject::Nothing, ""),
            Refusal::SpaceFull => ("the version space is full", Subject::Nothing, ""),
            Refusal::NoAttributes(path) => ("there is no file \"", Subject::Path(path), "\""),
            Refusal::PathClash(path) => ("", Subject::File(path), " clashes with a folder"),
            Refusal::NotShown(delta) => ("delta ", Subject::Delta(delta), " is not shown"),
            Refusal::BadReport(line) => ("report, line ", Subject::Line(*line), ""),
            Refusal::ReportNumber(line) => (
                "report, line ",
                Subject::Line(*line),
                ": number out of range",
            ),
            Refusal::BadBundle => ("the change set is not understood", Subject::Nothing, ""),
            Refusal::NotABranch => ("this is not a branch", Subject::Nothing, ""),
            Refusal::BranchBusy(change) => (
                "change ",
                Subject::Change(change),
                " of the branch is not completed",
            ),
        }
    }

    /// `aegis: `, the number, `: `, the text and a line end.
    pub fn message(&self, alloc: Global) -> Result<Vec<u8>, AllocError>
        ensures { IfOk result (λ message. message.items ≡ message_of self.now) }
    {
        let number = self.number();
        let message = format!(in alloc; "aegis: {number}: {self}\n")?;
        Ok(message.into_bytes())
    }
}

// A file with its path in quotes.
#[derive(Drop)]
struct File<'a>(&'a Path);

impl fmt::Display for File<'_> {
    ghost output = { λ it. Some (file_text it.0.now) };

    fn fmt<W: fmt::Write>(&self, f: &mut fmt::Formatter<W>) -> fmt::Result {
        let path = self.0;
        write!(f, "file \"{path}\"")
    }
}

// What a refusal names.
#[derive(Drop)]
enum Subject<'a> {
    Nothing,
    User(&'a User),
    Path(&'a Path),
    // A file, which is called so, with its path in quotes.
    File(&'a Path),
    // A file, and the change that holds its lock.
    Lock(&'a Path, &'a ChangeNo),
    // A file, a change's edit of it, and the project's.
    Edits(&'a Path, u32, u32),
    Phase(Phase),
    Change(&'a ChangeNo),
    Delta(&'a Delta),
    Line(u32),
    Limit(Which, u64),
}

impl fmt::Display for Subject<'_> {
    ghost output = { λ subject. Some (subject_text subject) };

    fn fmt<W: fmt::Write>(&self, f: &mut fmt::Formatter<W>) -> fmt::Result {
        match self {
            Subject::Nothing => Ok(()),
            Subject::User(user) => write!(f, "{user}"),
            Subject::Path(path) => write!(f, "{path}"),
            Subject::File(path) => write!(f, "{}", File(path)),
            Subject::Lock(path, change) => write!(f, "{} is locked by change {change}", File(path)),
            Subject::Edits(path, origin, edit) => write!(
                f,
                "{} is of edit {origin}, the project has edit {edit}",
                File(path)
            ),
            Subject::Phase(phase) => f.write_str(phase.word()),
            Subject::Change(change) => write!(f, "{change}"),
            Subject::Delta(delta) => write!(f, "{delta}"),
            Subject::Line(line) => write!(f, "{line}"),
            Subject::Limit(which, number) => write!(f, "{} is {number}", which.word()),
        }
    }
}

impl fmt::Display for Refusal {
    ghost output = { λ refusal. Some (text_of refusal) };

    fn fmt<W: fmt::Write>(&self, f: &mut fmt::Formatter<W>) -> fmt::Result {
        let (before, subject, after) = self.wording();
        write!(f, "{before}{subject}{after}")
    }
}

// The same text, since nothing looks for the names of the variants.
impl fmt::Debug for Refusal {
    fn fmt<W: fmt::Write>(&self, f: &mut fmt::Formatter<W>) -> fmt::Result {
        write!(f, "{self}")
    }
}

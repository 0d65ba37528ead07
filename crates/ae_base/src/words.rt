// The words of the records: each is read and written in one way.
ghost use Rattle.std.specs.Prelude.{◌≡◌, ◌↔◌, ℕ, List, Some, find};
ghost use Rattle.std.specs.Str.{bytes_eq};
ghost use Rattle.ae_base.specs.Limits.{most_of};
ghost use Rattle.ae_base.specs.Words.{phase_word, role_word, action_word, usage_word, cause_word, ground_word, kind_word, what_word, which_word, limits};

use crate::limits;

// What is written as one word.
trait Word: Copy {
    ghost written: { Self → List ℕ };

    fn text(self) -> &'static str
        ensures { result.now ≡ written self };
}

// The first of the table whose word this text is.
fn find_word<T: Word>(table: &[T], text: &[u8]) -> Option<T>
    ensures { result ≡ find (λ item. bytes_eq (T.written item) text.now) table.now }
{
    table
        .iter()
        .copied()
        .find(|item| item.text().as_bytes() == text)
}

/// The phase of a change.
#[derive(Clone, Copy, Debug, PartialEq, Eq)]
pub enum Phase {
    AwaitingDevelopment,
    BeingDeveloped,
    AwaitingReview,
    BeingReviewed,
    AwaitingIntegration,
    BeingIntegrated,
    Completed,
}

impl Phase {
    const ALL: [Phase; 7] = [
        Phase::AwaitingDevelopment,
        Phase::BeingDeveloped,
        Phase::AwaitingReview,
        Phase::BeingReviewed,
        Phase::AwaitingIntegration,
        Phase::BeingIntegrated,
        Phase::Completed,
    ];

    /// Its word.
    pub fn word(self) -> &'static str
        ensures { result.now ≡ phase_word self }
    {
        match self {
            Phase::AwaitingDevelopment => "awaiting_development",
            Phase::BeingDeveloped => "being_developed",
            Phase::AwaitingReview => "awaiting_review",
            Phase::BeingReviewed => "being_reviewed",
            Phase::AwaitingIntegration => "awaiting_integration",
            Phase::BeingIntegrated => "being_integrated",
            Phase::Completed => "completed",
        }
    }

    /// The one whose word this text is; `None` exactly where it is no such word.
    pub fn read(text: &[u8]) -> Option<Phase>
        ensures { (phase : _) → (result ≡ Some phase) ↔ (text.now ≡ phase_word phase) }
    {
        find_word(&Self::ALL, text)
    }
}

impl Word for Phase {
    ghost written = { phase_word };

    fn text(self) -> &'static str {
        self.word()
    }
}

/// What a user may be in a project.
#[derive(Clone, Copy, Debug, PartialEq, Eq)]
pub enum Role {
    Administrator,
    Developer,
    Reviewer,
    Integrator,
}

impl Role {
    const ALL: [Role; 4] = [
        Role::Administrator,
        Role::Developer,
        Role::Reviewer,
        Role::Integrator,
    ];

    /// Its word.
    pub fn word(self) -> &'static str
        ensures { result.now ≡ role_word self }
    {
        match self {
            Role::Administrator => "administrator",
            Role::Developer => "developer",
            Role::Reviewer => "reviewer",
            Role::Integrator => "integrator",
        }
    }

    /// The one whose word this text is; `None` exactly where it is no such word.
    pub fn read(text: &[u8]) -> Option<Role>
        ensures { (role : _) → (result ≡ Some role) ↔ (text.now ≡ role_word role) }
    {
        find_word(&Self::ALL, text)
    }
}

impl Word for Role {
    ghost written = { role_word };

    fn text(self) -> &'static str {
        self.word()
    }
}

/// What a change does to a file.
#[derive(Clone, Copy, Debug, PartialEq, Eq)]
pub enum Action {
    Create,
    Modify,
    Remove,
}

impl Action {
    const ALL: [Action; 3] = [Action::Create, Action::Modify, Action::Remove];

    /// Its word.
    pub fn word(self) -> &'static str
        ensures { result.now ≡ action_word self }
    {
        match self {
            Action::Create => "create",
            Action::Modify => "modify",
            Action::Remove => "remove",
        }
    }

    /// The one whose word this text is; `None` exactly where it is no such word.
    pub fn read(text: &[u8]) -> Option<Action>
        ensures { (action : _) → (result ≡ Some action) ↔ (text.now ≡ action_word action) }
    {
        find_word(&Self::ALL, text)
    }
}

impl Word for Action {
    ghost written = { action_word };

    fn text(self) -> &'static str {
        self.word()
    }
}

/// What a file is for.
#[derive(Clone, Copy, Debug, PartialEq, Eq)]
pub enum Usage {
    Source,
    Config,
    Test,
}

impl Usage {
    const ALL: [Usage; 3] = [Usage::Source, Usage::Config, Usage::Test];

    /// Its word.
    pub fn word(self) -> &'static str
        ensures { result.now ≡ usage_word self }
    {
        match self {
            Usage::Source => "source",
            Usage::Config => "config",
            Usage::Test => "test",
        }
    }

    /// The one whose word this text is; `None` exactly where it is no such word.
    pub fn read(text: &[u8]) -> Option<Usage>
        ensures { (usage : _) → (result ≡ Some usage) ↔ (text.now ≡ usage_word usage) }
    {
        find_word(&Self::ALL, text)
    }
}

impl Word for Usage {
    ghost written = { usage_word };

    fn text(self) -> &'static str {
        self.word()
    }
}

/// Why a change is made.
#[derive(Clone, Copy, Debug, PartialEq, Eq)]
pub enum Cause {
    ExternalBug,
    ExternalEnhancement,
    ExternalImprovement,
    InternalBug,
    InternalEnhancement,
    InternalImprovement,
    Chain,
}

impl Cause {
    const ALL: [Cause; 7] = [
        Cause::ExternalBug,
        Cause::ExternalEnhancement,
        Cause::ExternalImprovement,
        Cause::InternalBug,
        Cause::InternalEnhancement,
        Cause::InternalImprovement,
        Cause::Chain,
    ];

    /// Its word.
    pub fn word(self) -> &'static str
        ensures { result.now ≡ cause_word self }
    {
        match self {
            Cause::ExternalBug => "external_bug",
            Cause::ExternalEnhancement => "external_enhancement",
            Cause::ExternalImprovement => "external_improvement",
            Cause::InternalBug => "internal_bug",
            Cause::InternalEnhancement => "internal_enhancement",
            Cause::InternalImprovement => "internal_improvement",
            Cause::Chain => "chain",
        }
    }

    /// The one whose word this text is; `None` exactly where it is no such word.
    pub fn read(text: &[u8]) -> Option<Cause>
        ensures { (cause : _) → (result ≡ Some cause) ↔ (text.now ≡ cause_word cause) }
    {
        find_word(&Self::ALL, text)
    }
}

impl Word for Cause {
    ghost written = { cause_word };

    fn text(self) -> &'static str {
        self.word()
    }
}

/// During which part of a change's life a run was made. They are ordered as they come.
#[derive(Clone, Copy, Debug, PartialEq, Eq, PartialOrd, Ord)]
pub enum Ground {
    Develop,
    Integrate,
}

impl Ground {
    const ALL: [Ground; 2] = [Ground::Develop, Ground::Integrate];

    /// Its word.
    pub fn word(self) -> &'static str
        ensures { result.now ≡ ground_word self }
    {
        match self {
            Ground::Develop => "develop",
            Ground::Integrate => "integrate",
        }
    }

    /// The one whose word this text is; `None` exactly where it is no such word.
    pub fn read(text: &[u8]) -> Option<Ground>
        ensures { (during : _) → (result ≡ Some during) ↔ (text.now ≡ ground_word during) }
    {
        find_word(&Self::ALL, text)
    }
}

impl Word for Ground {
    ghost written = { ground_word };

    fn text(self) -> &'static str {
        self.word()
    }
}

/// The kinds of runs, in the order in which they are asked for.
#[derive(Clone, Copy, Debug, PartialEq, Eq, PartialOrd, Ord)]
pub enum Kind {
    Build,
    Test,
    BaselineTest,
    RegressionTest,
}

impl Kind {
    const ALL: [Kind; 4] = [
        Kind::Build,
        Kind::Test,
        Kind::BaselineTest,
        Kind::RegressionTest,
    ];

    /// Its word.
    pub fn word(self) -> &'static str
        ensures { result.now ≡ kind_word self }
    {
        match self {
            Kind::Build => "build",
            Kind::Test => "test",
            Kind::BaselineTest => "baseline_test",
            Kind::RegressionTest => "regression_test",
        }
    }

    /// The one whose word this text is; `None` exactly where it is no such word.
    pub fn read(text: &[u8]) -> Option<Kind>
        ensures { (kind : _) → (result ≡ Some kind) ↔ (text.now ≡ kind_word kind) }
    {
        find_word(&Self::ALL, text)
    }
}

impl Word for Kind {
    ghost written = { kind_word };

    fn text(self) -> &'static str {
        self.word()
    }
}

/// What happened to a change, as its history says it.
#[derive(Clone, Copy, Debug, PartialEq, Eq)]
pub enum What {
    NewChange,
    DevelopBegin,
    DevelopBeginUndo,
    DevelopEnd,
    DevelopEndUndo,
    ReviewBegin,
    ReviewBeginUndo,
    ReviewPass,
    ReviewPassUndo,
    ReviewFail,
    IntegrateBegin,
    IntegrateBeginUndo,
    IntegratePass,
    IntegrateFail,
}

impl What {
    const ALL: [What; 14] = [
        What::NewChange,
        What::DevelopBegin,
        What::DevelopBeginUndo,
        What::DevelopEnd,
        What::DevelopEndUndo,
        What::ReviewBegin,
        What::ReviewBeginUndo,
        What::ReviewPass,
        What::ReviewPassUndo,
        What::ReviewFail,
        What::IntegrateBegin,
        What::IntegrateBeginUndo,
        What::IntegratePass,
        What::IntegrateFail,
    ];

    /// Its word.
    pub fn word(self) -> &'static str
        ensures { result.now ≡ what_word self }
    {
        match self {
            What::NewChange => "new_change",
            What::DevelopBegin => "develop_begin",
            What::DevelopBeginUndo => "develop_begin_undo",
            What::DevelopEnd => "develop_end",
            What::DevelopEndUndo => "develop_end_undo",
            What::ReviewBegin => "review_begin",
            What::ReviewBeginUndo => "review_begin_undo",
            What::ReviewPass => "review_pass",
            What::ReviewPassUndo => "review_pass_undo",
            What::ReviewFail => "review_fail",
            What::IntegrateBegin => "integrate_begin",
            What::IntegrateBeginUndo => "integrate_begin_undo",
            What::IntegratePass => "integrate_pass",
            What::IntegrateFail => "integrate_fail",
        }
    }

    /// The one whose word this text is; `None` exactly where it is no such word.
    pub fn read(text: &[u8]) -> Option<What>
        ensures { (what : _) → (result ≡ Some what) ↔ (text.now ≡ what_word what) }
    {
        find_word(&Self::ALL, text)
    }
}

impl Word for What {
    ghost written = { what_word };

    fn text(self) -> &'static str {
        self.word()
    }
}

/// The limits of a project.
#[derive(Clone, Copy, Debug, PartialEq, Eq)]
pub enum Which {
    FileBytes,
    AttributeBytes,
    FrozenBytes,
    ChangeFiles,
    ProjectFiles,
    ProjectTests,
    RoleUsers,
    Changes,
    Deltas,
    Versions,
    HistoryRows,
}

impl Which {
    const ALL: [Which; 11] = [
        Which::FileBytes,
        Which::AttributeBytes,
        Which::FrozenBytes,
        Which::ChangeFiles,
        Which::ProjectFiles,
        Which::ProjectTests,
        Which::RoleUsers,
        Which::Changes,
        Which::Deltas,
        Which::Versions,
        Which::HistoryRows,
    ];

    /// Its word.
    pub fn word(self) -> &'static str
        ensures { result.now ≡ which_word self }
    {
        match self {
            Which::FileBytes => "file_bytes",
            Which::AttributeBytes => "attribute_bytes",
            Which::FrozenBytes => "frozen_bytes",
            Which::ChangeFiles => "change_files",
            Which::ProjectFiles => "project_files",
            Which::ProjectTests => "project_tests",
            Which::RoleUsers => "role_users",
            Which::Changes => "changes",
            Which::Deltas => "deltas",
            Which::Versions => "versions",
            Which::HistoryRows => "history_rows",
        }
    }

    /// The most that it allows, which a refusal by it tells.
    pub fn most(self) -> u64
        ensures { result ≡ most_of self }
    {
        match self {
            Which::FileBytes => limits::MOST_FILE_BYTES as u64,
            Which::AttributeBytes => limits::MOST_ATTRIBUTE_BYTES as u64,
            Which::FrozenBytes => limits::MOST_FROZEN_BYTES as u64,
            Which::ChangeFiles => limits::MOST_CHANGE_FILES as u64,
            Which::ProjectFiles => limits::MOST_PROJECT_FILES as u64,
            Which::ProjectTests => limits::MOST_PROJECT_TESTS as u64,
            Which::RoleUsers => limits::MOST_ROLE_USERS as u64,
            Which::Changes => limits::MOST_CHANGES as u64,
            Which::Deltas => limits::MOST_DELTAS as u64,
            Which::Versions => limits::MOST_VERSIONS,
            Which::HistoryRows => limits::MOST_HISTORY_ROWS as u64,
        }
    }

    /// The one whose word this text is; `None` exactly where it is no such word.
    pub fn read(text: &[u8]) -> Option<Which>
        ensures { (which : _) → (result ≡ Some which) ↔ (text.now ≡ which_word which) }
    {
        find_word(&Self::ALL, text)
    }
}

impl Word for Which {
    ghost written = { which_word };

    fn text(self) -> &'static str {
        self.word()
    }
}

// The table of functions, listings and options, with their patterns and the words that they take.
ghost use Rattle.std.specs.Prelude.{◌≡◌, ◌↔◌, Some};
ghost use Rattle.ae_words.specs.Spelling.{Matches};
ghost use Rattle.ae_words.specs.Table.{function_pattern, listing_pattern, setting_pattern, row, is_one_command, of_change, adds_row, allows, allows_change, needs_change, needs_attributes};
ghost use Rattle.ae_words.specs.Items.{function_named, listing_named, setting_named};

use crate::spelling::spells_from;

/// What a command does.
#[derive(Clone, Copy, Debug, PartialEq, Eq)]
pub enum Function {
    NewProject,
    NewAdministrator,
    RemoveAdministrator,
    NewDeveloper,
    RemoveDeveloper,
    NewReviewer,
    RemoveReviewer,
    NewIntegrator,
    RemoveIntegrator,
    ProjectAttributes,
    NewChange,
    ChangeAttributes,
    NewChangeUndo,
    DevelopBegin,
    DevelopBeginUndo,
    Build,
    DevelopEnd,
    DevelopEndUndo,
    ReviewBegin,
    ReviewBeginUndo,
    ReviewPass,
    ReviewPassUndo,
    ReviewFail,
    IntegrateBegin,
    IntegrateBeginUndo,
    IntegratePass,
    IntegrateFail,
    CopyFile,
    CopyFileUndo,
    NewFile,
    NewFileUndo,
    NewTest,
    NewTestUndo,
    RemoveFile,
    RemoveFileUndo,
    Test,
    List,
    Script,
    Generate,
    Audit,
    Report,
    DistributionSend,
    DistributionReceive,
}

/// What a listing shows.
#[derive(Clone, Copy, Debug, PartialEq, Eq)]
pub enum Listing {
    Administrators,
    Developers,
    Reviewers,
    Integrators,
    ProjectChanges,
    ProjectDetails,
    ProjectFiles,
    ProjectHistory,
    ChangeDetails,
    ChangeFiles,
    ChangeHistory,
    ChangeEvidence,
    Locks,
}

/// An option of a command.
#[derive(Clone, Copy, Debug, PartialEq, Eq)]
pub enum Setting {
    Project,
    File,
    Change,
    Delta,
    Overwriting,
    Baseline,
    Regression,
    Reason,
}

/// A row of the table: the words that its functions take beside `-Project`, which all take but those of `NewProject`,
/// `Nothing` and `Numbers`, and beside `-REAson`, which those take that add a row to a change's history.
#[derive(Clone, Copy, Debug, PartialEq, Eq)]
pub enum Row {
    /// A project's name, and `-File` if wanted.
    NewProject,
    /// One or more users.
    Users,
    /// `-File`.
    Attributes,
    /// `-Change` and `-File`.
    ChangeAttributes,
    /// `-Change`.
    Change,
    /// `-Change`, one or more paths, and `-DELta` and `-OverWriting` if wanted.
    Copy,
    /// `-Change`, and one or more paths.
    Paths,
    /// `-Change`, and one or more paths, none of them `aegis.conf`.
    NewTest,
    /// `-Change`, and one of `-BaseLine` and `-REGression` if wanted.
    Test,
    /// A listing, and `-Change` exactly with those of a change.
    Listing,
    /// No word.
    Nothing,
    /// No word but `-Project`.
    Alone,
    /// One path.
    Report,
    /// Three numbers: 0 to 18,446,744,073,709,551,615, 1 to 200 and 1 to 99.
    Numbers,
}

impl Function {
    /// All of them.
    pub const ALL: [Function; 43] = [
        Function::NewProject,
        Function::NewAdministrator,
        Function::RemoveAdministrator,
        Function::NewDeveloper,
        Function::RemoveDeveloper,
        Function::NewReviewer,
        Function::RemoveReviewer,
        Function::NewIntegrator,
        Function::RemoveIntegrator,
        Function::ProjectAttributes,
        Function::NewChange,
        Function::ChangeAttributes,
        Function::NewChangeUndo,
        Function::DevelopBegin,
        Function::DevelopBeginUndo,
        Function::Build,
        Function::DevelopEnd,
        Function::DevelopEndUndo,
        Function::ReviewBegin,
        Function::ReviewBeginUndo,
        Function::ReviewPass,
        Function::ReviewPassUndo,
        Function::ReviewFail,
        Function::IntegrateBegin,
        Function::IntegrateBeginUndo,
        Function::IntegratePass,
        Function::IntegrateFail,
        Function::CopyFile,
        Function::CopyFileUndo,
        Function::NewFile,
        Function::NewFileUndo,
        Function::NewTest,
        Function::NewTestUndo,
        Function::RemoveFile,
        Function::RemoveFileUndo,
        Function::Test,
        Function::List,
        Function::Script,
        Function::Generate,
        Function::Audit,
        Function::Report,
        Function::DistributionSend,
        Function::DistributionReceive,
    ];

    /// The pattern of its words.
    pub fn pattern(self) -> &'static str
        ensures { result.now ≡ function_pattern self }
    {
        match self {
            Function::NewProject => "New_PRoject",
            Function::NewAdministrator => "New_Administrator",
            Function::RemoveAdministrator => "Remove_Administrator",
            Function::NewDeveloper => "New_Developer",
            Function::RemoveDeveloper => "Remove_Developer",
            Function::NewReviewer => "New_ReViewer",
            Function::RemoveReviewer => "Remove_ReViewer",
            Function::NewIntegrator => "New_Integrator",
            Function::RemoveIntegrator => "Remove_Integrator",
            Function::ProjectAttributes => "Project_Attributes",
            Function::NewChange => "New_Change",
            Function::ChangeAttributes => "Change_Attributes",
            Function::NewChangeUndo => "New_Change_Undo",
            Function::DevelopBegin => "Develop_Begin",
            Function::DevelopBeginUndo => "Develop_Begin_Undo",
            Function::Build => "Build",
            Function::DevelopEnd => "Develop_End",
            Function::DevelopEndUndo => "Develop_End_Undo",
            Function::ReviewBegin => "Review_Begin",
            Function::ReviewBeginUndo => "Review_Begin_Undo",
            Function::ReviewPass => "Review_PASS",
            Function::ReviewPassUndo => "Review_Pass_Undo",
            Function::ReviewFail => "Review_FAIL",
            Function::IntegrateBegin => "Integrate_Begin",
            Function::IntegrateBeginUndo => "Integrate_Begin_Undo",
            Function::IntegratePass => "Integrate_PASS",
            Function::IntegrateFail => "Integrate_FAIL",
            Function::CopyFile => "CoPy_file",
            Function::CopyFileUndo => "CoPy_file_Undo",
            Function::NewFile => "New_File",
            Function::NewFileUndo => "New_File_Undo",
            Function::NewTest => "New_Test",
            Function::NewTestUndo => "New_Test_Undo",
            Function::RemoveFile => "ReMove_file",
            Function::RemoveFileUndo => "ReMove_file_Undo",
            Function::Test => "Test",
            Function::List => "List",
            Function::Script => "SCRipt",
            Function::Generate => "GENerate",
            Function::Audit => "AUDit",
            Function::Report => "REPort",
            Function::DistributionSend => "Distribution_Send",
            Function::DistributionReceive => "Distribution_Receive",
        }
    }

    /// The function whose pattern the name spells, a function word's dash left out; `None` exactly where it spells none. So no
    /// name spells two.
    pub fn read(name: &[u8]) -> Option<Function>
        ensures { (function : _) → (result ≡ Some function) ↔ Matches (function_pattern function) name.now }
    {
        Self::find(name)
    }

    pub(crate) fn find(name: &[u8]) -> Option<Function>
        ensures { result ≡ function_named name.now }
    {
        Self::ALL.iter().copied().find(|function| spells_from(
            false,
            function.pattern().as_bytes(),
            name,
        ))
    }
}

impl Listing {
    /// All of them.
    pub const ALL: [Listing; 13] = [
        Listing::Administrators,
        Listing::Developers,
        Listing::Reviewers,
        Listing::Integrators,
        Listing::ProjectChanges,
        Listing::ProjectDetails,
        Listing::ProjectFiles,
        Listing::ProjectHistory,
        Listing::ChangeDetails,
        Listing::ChangeFiles,
        Listing::ChangeHistory,
        Listing::ChangeEvidence,
        Listing::Locks,
    ];

    /// The pattern of its words.
    pub fn pattern(self) -> &'static str
        ensures { result.now ≡ listing_pattern self }
    {
        match self {
            Listing::Administrators => "Administrators",
            Listing::Developers => "Developers",
            Listing::Reviewers => "Reviewers",
            Listing::Integrators => "Integrators",
            Listing::ProjectChanges => "Project_Changes",
            Listing::ProjectDetails => "Project_Details",
            Listing::ProjectFiles => "Project_Files",
            Listing::ProjectHistory => "Project_HIstory",
            Listing::ChangeDetails => "Change_Details",
            Listing::ChangeFiles => "Change_Files",
            Listing::ChangeHistory => "Change_History",
            Listing::ChangeEvidence => "Change_Evidence",
            Listing::Locks => "Locks",
        }
    }

    /// The listing whose pattern the name spells; `None` exactly where it spells none. So no
    /// name spells two.
    pub fn read(name: &[u8]) -> Option<Listing>
        ensures { (listing : _) → (result ≡ Some listing) ↔ Matches (listing_pattern listing) name.now }
    {
        Self::find(name)
    }

    pub(crate) fn find(name: &[u8]) -> Option<Listing>
        ensures { result ≡ listing_named name.now }
    {
        Self::ALL.iter().copied().find(|listing| spells_from(
            false,
            listing.pattern().as_bytes(),
            name,
        ))
    }
}

impl Setting {
    /// All of them.
    pub const ALL: [Setting; 8] = [
        Setting::Project,
        Setting::File,
        Setting::Change,
        Setting::Delta,
        Setting::Overwriting,
        Setting::Baseline,
        Setting::Regression,
        Setting::Reason,
    ];

    /// The pattern of its words.
    pub fn pattern(self) -> &'static str
        ensures { result.now ≡ setting_pattern self }
    {
        match self {
            Setting::Project => "Project",
            Setting::File => "File",
            Setting::Change => "Change",
            Setting::Delta => "DELta",
            Setting::Overwriting => "OverWriting",
            Setting::Baseline => "BaseLine",
            Setting::Regression => "REGression",
            Setting::Reason => "REAson",
        }
    }

    /// The option whose pattern the name spells, an option word's dash left out; `None` exactly where it spells none. So no
    /// name spells two.
    pub fn read(name: &[u8]) -> Option<Setting>
        ensures { (setting : _) → (result ≡ Some setting) ↔ Matches (setting_pattern setting) name.now }
    {
        Self::find(name)
    }

    pub(crate) fn find(name: &[u8]) -> Option<Setting>
        ensures { result ≡ setting_named name.now }
    {
        Self::ALL.iter().copied().find(|option| spells_from(
            false,
            option.pattern().as_bytes(),
            name,
        ))
    }
}

impl Function {
    /// The row of the table in which it stands.
    pub fn row(self) -> Row
        ensures { result ≡ row self }
    {
        match self {
            Function::NewProject => Row::NewProject,
            Function::NewAdministrator
            | Function::RemoveAdministrator
            | Function::NewDeveloper
            | Function::RemoveDeveloper
            | Function::NewReviewer
            | Function::RemoveReviewer
            | Function::NewIntegrator
            | Function::RemoveIntegrator => Row::Users,
            Function::ProjectAttributes | Function::NewChange => Row::Attributes,
            Function::ChangeAttributes => Row::ChangeAttributes,
            Function::NewChangeUndo
            | Function::DevelopBegin
            | Function::DevelopBeginUndo
            | Function::Build
            | Function::DevelopEnd
            | Function::DevelopEndUndo
            | Function::ReviewBegin
            | Function::ReviewBeginUndo
            | Function::ReviewPass
            | Function::ReviewPassUndo
            | Function::ReviewFail
            | Function::IntegrateBegin
            | Function::IntegrateBeginUndo
            | Function::IntegratePass
            | Function::IntegrateFail
            | Function::DistributionSend => Row::Change,
            Function::CopyFile => Row::Copy,
            Function::CopyFileUndo
            | Function::NewFile
            | Function::NewFileUndo
            | Function::NewTestUndo
            | Function::RemoveFile
            | Function::RemoveFileUndo => Row::Paths,
            Function::NewTest => Row::NewTest,
            Function::Test => Row::Test,
            Function::List => Row::Listing,
            Function::Script | Function::Audit => Row::Nothing,
            Function::DistributionReceive => Row::Alone,
            Function::Report => Row::Report,
            Function::Generate => Row::Numbers,
        }
    }

    /// Whether it is one command, to which the log machine has an answer, and which may stand in a script: a script, the
    /// generator and a change set that is received are many commands, and an audit, a report and a change set that is sent
    /// are looks at what stands.
    pub fn is_one_command(self) -> bool
        ensures { result ≡ is_one_command self }
    {
        !matches!(
            self,
            Function::Script
                | Function::Generate
                | Function::Audit
                | Function::Report
                | Function::DistributionSend
                | Function::DistributionReceive
        )
    }

    /// Whether it adds a row to its change's history.
    pub fn adds_row(self) -> bool
        ensures { result ≡ adds_row self }
    {
        matches!(
            self,
            Function::NewChange
                | Function::DevelopBegin
                | Function::DevelopBeginUndo
                | Function::DevelopEnd
                | Function::DevelopEndUndo
                | Function::ReviewBegin
                | Function::ReviewBeginUndo
                | Function::ReviewPass
                | Function::ReviewPassUndo
                | Function::ReviewFail
                | Function::IntegrateBegin
                | Function::IntegrateBeginUndo
                | Function::IntegratePass
                | Function::IntegrateFail
        )
    }

    /// Whether the option may stand with this function; with `List`, with this listing.
    pub fn allows(self, listing: Option<Listing>, option: Setting) -> bool
        ensures { result ≡ allows self listing option }
    {
        let row = self.row();
        match option {
            Setting::Project => !matches!(row, Row::NewProject | Row::Nothing | Row::Numbers),
            Setting::File => matches!(
                row,
                Row::NewProject | Row::Attributes | Row::ChangeAttributes
            ),
            Setting::Change => row.allows_change(listing),
            Setting::Delta | Setting::Overwriting => matches!(row, Row::Copy),
            Setting::Baseline | Setting::Regression => matches!(row, Row::Test),
            Setting::Reason => self.adds_row(),
        }
    }
}

impl Row {
    fn allows_change(self, listing: Option<Listing>) -> bool
        ensures { result ≡ allows_change self listing }
    {
        match self {
            Row::ChangeAttributes
            | Row::Change
            | Row::Copy
            | Row::Paths
            | Row::NewTest
            | Row::Test => true,
            Row::Listing => match listing {
                None => true,
                Some(listing) => listing.is_of_change(),
            },
            Row::NewProject
            | Row::Users
            | Row::Attributes
            | Row::Nothing
            | Row::Alone
            | Row::Report
            | Row::Numbers => false,
        }
    }

    /// Whether `-File` must be there.
    pub fn needs_attributes(self) -> bool
        ensures { result ≡ needs_attributes self }
    {
        matches!(self, Row::Attributes | Row::ChangeAttributes)
    }

    /// Whether `-Change` must be there, with `List` for this listing.
    pub fn needs_change(self, listing: Option<Listing>) -> bool
        ensures { result ≡ needs_change self listing }
    {
        match (self, listing) {
            (Row::Listing, None) => false,
            _ => self.allows_change(listing),
        }
    }
}

impl Listing {
    /// Whether it shows a change, and so takes `-Change`.
    pub fn is_of_change(self) -> bool
        ensures { result ≡ of_change self }
    {
        matches!(
            self,
            Listing::ChangeDetails
                | Listing::ChangeFiles
                | Listing::ChangeHistory
                | Listing::ChangeEvidence
        )
    }
}

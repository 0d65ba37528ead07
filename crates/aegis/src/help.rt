// What the program says of itself.
ghost use Rattle.std.specs.Prelude.{◌≡◌, ◌↔◌, IsSome, IsTrue, Some, codes, map, option_map, string_bytes};
ghost use Rattle.ae_words.specs.Items.{behind_dash};
ghost use Rattle.aegis.specs.Help.{Asks, AsksAbout, AsksHelp, NamesTopic, Spells};

use crate::help_of::text_of;
use crate::help_of_other::Topic;
use ae_words::{Function, first_function, matches_option};

const VERSION: &str = "aegis 1.0.0, format 2 of the store\n";

pub(crate) const HELP: &str = "\
usage: aegis -FUNCTION WORD..
       aegis -Help [FUNCTION | N]

A function, a listing and an option are spelled by their patterns: a capital must be typed; of a run of small letters a first
part may be, or nothing; `_` may be `-` or nothing; case doesn't matter; a second `-` is ignored. So `-npr` is `--New-Project`.

A change goes this way: -nc, -db, then -cp or -nf for each file *before* it is edited, -nt, -b, -t, -t -bl, -t -reg, -de; somebody
else gives -rpass, and a third one -ib, -b, -t, -t -bl, -t -reg, -ipass.

The project and its people:

  -New_PRoject NAME [-File PATH]   makes a project in the current folder
  -New_Administrator USER..   gives users the role
  -Remove_Administrator USER..   takes it from them
  -New_Developer USER..   gives users the role
  -Remove_Developer USER..   takes it from them
  -New_ReViewer USER..   gives users the role
  -Remove_ReViewer USER..   takes it from them
  -New_Integrator USER..   gives users the role
  -Remove_Integrator USER..   takes it from them
  -Project_Attributes -File PATH   sets the project's attributes

Changes, their builds and the end of a development:

  -New_Change -File PATH   makes a change
  -Change_Attributes -Change N -File PATH   sets its attributes
  -New_Change_Undo -Change N   takes back a change that nobody has begun
  -Develop_Begin -Change N   begins development, in aegis.d/develop.N
  -Develop_Begin_Undo -Change N   gives the change back
  -Build -Change N   runs the build command
  -Develop_End -Change N   ends development: the files are frozen
  -Develop_End_Undo -Change N   goes back to development

Reviews and integrations:

  -Review_Begin -Change N   begins a review, where the project asks for it
  -Review_Begin_Undo -Change N   gives it back
  -Review_PASS -Change N   passes the change
  -Review_Pass_Undo -Change N   takes that back
  -Review_FAIL -Change N   sends it back to its developer
  -Integrate_Begin -Change N   begins integration, in aegis.d/integrate.D
  -Integrate_Begin_Undo -Change N   gives it back
  -Integrate_PASS -Change N   makes it the new baseline
  -Integrate_FAIL -Change N   sends it back to its developer

The files of a change, and tests:

  -CoPy_file -Change N PATH.. [-DELta N] [-OverWriting]   takes files of the project, to be modified
  -CoPy_file_Undo -Change N PATH..   takes them out again
  -New_File -Change N PATH..   adds new files
  -New_File_Undo -Change N PATH..   takes them out again, and removes them
  -New_Test -Change N PATH..   adds new tests
  -New_Test_Undo -Change N PATH..   takes them out again, and removes them
  -ReMove_file -Change N PATH..   has the change remove files of the project
  -ReMove_file_Undo -Change N PATH..   has it keep them
  -Test -Change N [-BaseLine | -REGression]   runs the change's tests, these on the old baseline, or the other tests

Listings, scripts, made-up projects, an audit, reports, and change sets:

  -List LISTING [-Change N]   prints a listing
  -SCRipt   does the lines of standard input
  -GENerate START CHANGES FILES   makes a project with a long history, in an empty folder
  -AUDit   shows by the files of the store alone how each delta was built, tested and reviewed
  -REPort PATH   prints what a report says of the project
  -Distribution_Send -Change N   writes a completed change to standard output, for another project
  -Distribution_Receive   makes a change of what was sent, which standard input has

Branches:

    aegis -BRanch NAME -BEGin N    begins a branch from delta N: a project of its own, in aegis.d/branch.NAME
    aegis -BRanch NAME -FUNCTION   does a command in the branch, with its other words
    aegis -BRanch NAME -FINish     makes a change of the project of what the branch did after its first delta

The listings:

  Administrators
  Developers
  Reviewers
  Integrators
  Project_Changes
  Project_Details
  Project_Files
  Project_HIstory
  Change_Details -Change N
  Change_Files -Change N
  Change_History -Change N
  Change_Evidence -Change N
  Locks

An option's value is the next word, or stands after `=` in the same word. The options:

    -Project NAME   the command is refused where the project has another name; with every function but -npr, -scr, -gen and -aud
    -File PATH      a file of attributes in the current folder
    -Change N       the number of a change, 10 to 1999
    -DELta N        the files as they were after that delta, 0 to 1990, and not as they are in the baseline
    -OverWriting    also files that are in the change already
    -BaseLine       the change's tests are run over the baseline
    -REGression     the project's other tests are run
    -REAson TEXT    why it is done, at most 1,000 bytes; with -nc, and with what begins, ends, passes or fails a development, a
                    review or an integration, or takes that back; `-List Change_History` shows it

A PATH is one in the directory of the change: parts of A-Za-z0-9._+- joined by `/`.

`-Help` prints this text, `-Help FUNCTION` says more of one function, `-Help N` of the refusal of that number, and `-Version`
prints the version.

The project is the one in the current folder, in `aegis.d`. The files of change 10 are in `aegis.d/develop.10` while it is
developed, and `aegis.log` there has what its builds and tests write: `tail -f aegis.d/develop.10/aegis.log` follows it. What a
command overwrites there is kept once, in `aegis.d/develop.10.old`.
The user is the variable AEGIS_USER, else LOGNAME, else nobody: 1 to 32 of a-z0-9_.-, the first a letter or `_`. Where it isn't,
`word 0 is not understood`. `-SCRipt` does the lines of standard input: `do WORDS` is a command, and what is said goes to standard
output. Of a command alone a listing goes there, and all else to standard error.
Another command is waited for as many seconds as AEGIS_WAIT says, 5 where it isn't set. With AEGIS_TRACE set the cause of a fault is
said; `aewhy` looks for it.
The exit status:

    0   it is done
    1   it is refused, or a run failed
    2   the words, or a line of a script, aren't understood
    3   the disk failed, or another command holds the lock
    4   a directory failed
    5   the output wasn't taken
    6   the input wasn't read
    7   a file of the store is damaged
    8   out of memory
";

/// What the program is asked of itself.
#[derive(Clone, Copy, Debug, PartialEq, Eq)]
pub enum Question {
    Help,
    /// What this function does.
    HelpOf(Function),
    /// What this refusal means, or these words of a branch.
    HelpOfOther(Topic),
    Version,
}

// The name of an option word: a second dash is ignored.
fn name_of(word: &[u8]) -> Option<&[u8]>
    ensures { option_map (λ name. name.now) result ≡ behind_dash word.now }
{
    match word {
        [b'-', b'-', name @ ..] => Some(name),
        [b'-', name @ ..] => Some(name),
        _ => None,
    }
}

// Whether these words are an option word alone that spells the pattern.
fn asks(pattern: &[u8], words: &[String]) -> bool
    ensures { IsTrue result ↔ Asks pattern.now (map string_bytes words.now) }
{
    let [word] = words else {
        return false;
    };
    match name_of(word.as_bytes()) {
        Some(name) => matches_option(pattern, name),
        None => false,
    }
}

// The function that a word names, with a dash or without.
fn function_of(word: &[u8]) -> Option<Function>
    ensures { (function : _) → (result ≡ Some function) ↔ Spells function (behind_dash word.now) word.now }
{
    match name_of(word) {
        Some(name) => Function::read(name),
        None => Function::read(word),
    }
}

// What a word names that is no function, with a dash or without.
fn topic_of(word: &[u8]) -> Option<Topic>
    ensures named { (topic : _) → result ≡ Some topic → NamesTopic topic (behind_dash word.now) word.now }
    ensures read { (topic : _) → NamesTopic topic (behind_dash word.now) word.now → IsSome result }
{
    match name_of(word) {
        Some(name) => Topic::read(name),
        None => Topic::read(word),
    }
}

// The function that these words ask about: a word that spells `Help`, and its name.
fn asked_about(words: &[String]) -> Option<Function>
    ensures { (function : _) → (result ≡ Some function) ↔ AsksAbout function (map string_bytes words.now) }
{
    let [help, word] = words else {
        return None;
    };
    match name_of(help.as_bytes()) {
        Some(name) if matches_option(b"Help", name) => function_of(word.as_bytes()),
        _ => None,
    }
}

// What these words ask about that is no function.
fn asked_of_other(words: &[String]) -> Option<Topic>
    ensures named { (topic : _) → result ≡ Some topic → AsksHelp topic (map string_bytes words.now) }
    ensures read { (topic : _) → AsksHelp topic (map string_bytes words.now) → IsSome result }
{
    let [help, word] = words else {
        return None;
    };
    match name_of(help.as_bytes()) {
        Some(name) if matches_option(b"Help", name) => topic_of(word.as_bytes()),
        _ => None,
    }
}

impl Question {
    /// What the words ask of the program itself, if they do.
    pub fn read(words: &[String]) -> Option<Question>
        ensures help { (result ≡ Some Question.Help) ↔ Asks (codes "Help") (map string_bytes words.now) }
        ensures version { result ≡ Some Question.Version → Asks (codes "Version") (map string_bytes words.now) }
        ensures about { (function : _) → (result ≡ Some (Question.HelpOf function)) ↔ AsksAbout function (map string_bytes words.now) }
        ensures answered { Asks (codes "Version") (map string_bytes words.now) → IsSome result }
        ensures other { (topic : _) → (result ≡ Some (Question.HelpOfOther topic)) → AsksHelp topic (map string_bytes words.now) }
        ensures answered_of_other { (topic : _) → AsksHelp topic (map string_bytes words.now) → IsSome result }
    {
        if asks(b"Help", words) {
            return Some(Question::Help);
        }
        if asks(b"Version", words) {
            return Some(Question::Version);
        }
        if let Some(function) = asked_about(words) {
            return Some(Question::HelpOf(function));
        }
        match asked_of_other(words) {
            Some(topic) => Some(Question::HelpOfOther(topic)),
            None => None,
        }
    }

    /// What it prints.
    pub fn answer(self) -> &'static str {
        match self {
            Question::Help => HELP,
            Question::HelpOf(function) => text_of(function),
            Question::HelpOfOther(topic) => topic.text(),
            Question::Version => VERSION,
        }
    }
}

// How a text says that its function is written.
fn first_line(text: &'static str) -> &'static str {
    text.lines().next().unwrap_or("").trim_start()
}

// What a word of a branch names.
fn topic_in(word: Option<&String>) -> Option<Topic> {
    name_of(word?.as_bytes()).and_then(Topic::read)
}

/// How what these words begin with is written; `None` where that isn't known.
pub fn usage_of(words: &[String]) -> Option<&'static str> {
    if let Some(function) = first_function(words) {
        return Some(first_line(text_of(function)));
    }
    let Some(Topic::Branch) = topic_in(words.first()) else {
        return None;
    };
    let command = words.get(2..).unwrap_or(&[]);
    match (first_function(command), topic_in(command.first())) {
        (Some(function), _) => Some(first_line(text_of(function))),
        (None, Some(topic)) => Some(first_line(topic.text())),
        (None, None) => Some(first_line(Topic::Branch.text())),
    }
}

// A command, and how its words make it.
ghost use Rattle.std.specs.Prelude.{◌≡◌, ◌<◌, IfOk, IfErr, Ok, Err, Some, None, if◌then◌else◌, length, map, string_bytes, true, false};
ghost use Rattle.ae_words.specs.Meaning.{blank, next_number, with_plain, with_name, with_user, with_path, with_one_path, with_test, with_listing, with_number, with_value, with_flag, is_free, may_come, step, has_plain, is_whole};
ghost use Rattle.ae_words.specs.Items.{items_from, listing};
ghost use Rattle.ae_words.specs.Grammar.{reads};
ghost use Rattle.ae_words.specs.Table.{row};
ghost use Rattle.ae_words.specs.Seen.{item_seen, Gives};
ghost use Rattle.ae_words.specs.declared.command.Stop.TheVariants as stop;

use crate::items::{Item, named_listing, next_item};
use crate::numbers::NumberList;
use crate::table::{Function, Listing, Row, Setting};
use ae_base::{ChangeNo, Delta, Path, PathList, ProjectName, Text, User, UserList, read_number};
use std::alloc::{AllocError, Global};

/// What the words of a command say: its function, and beside it just what was written.
#[derive(Debug, Drop)]
pub struct Command {
    pub function: Function,
    /// Of `-Project`.
    pub project: Option<ProjectName>,
    /// Of `-Change`.
    pub change: Option<ChangeNo>,
    /// Of `-File`: the path of the file with attributes.
    pub attributes: Option<Path>,
    /// Of `-DELta`.
    pub delta: Option<Delta>,
    /// Whether `-OverWriting` is there.
    pub overwriting: bool,
    /// Whether `-BaseLine` is there.
    pub baseline: bool,
    /// Whether `-REGression` is there.
    pub regression: bool,
    /// The plain word of `New_PRoject`.
    pub name: Option<ProjectName>,
    /// Plain words, in their order.
    pub users: UserList,
    /// Plain words, in their order.
    pub paths: PathList,
    /// The plain word of `List`.
    pub listing: Option<Listing>,
    /// The plain words of `GENerate`: the start, the number of changes and the number of files.
    pub numbers: NumberList,
    /// Of `-REAson`: why it is done.
    pub reason: Option<Text>,
}

/// Where reading stops.
#[derive(Debug, Drop)]
pub(crate) enum Stop {
    /// At the bad word at this place, counted from 1.
    Bad(usize),
    Memory,
}

impl From<AllocError> for Stop {
    ghost from_gives = { λ _ e. e ≡ stop.Memory };

    fn from(_: AllocError) -> Stop {
        Stop::Memory
    }
}

/// More users or paths are too many.
const MOST: usize = 1000;

/// A number has at most so many digits.
const MOST_DIGITS: usize = 20;

/// A longer reason is too long.
const MOST_REASON_BYTES: usize = 1000;

/// More changes aren't generated.
const MOST_GENERATED_CHANGES: u64 = 200;

/// More files of a change aren't generated.
const MOST_GENERATED_FILES: u64 = 99;

#[tactic(auto, unfolding(crate::specs::Meaning::blank))]
fn blank(alloc: Global, function: Function) -> Command
    ensures { result ≡ blank function }
{
    Command {
        function,
        project: None,
        change: None,
        attributes: None,
        delta: None,
        overwriting: false,
        baseline: false,
        regression: false,
        name: None,
        users: UserList::new(alloc),
        paths: PathList::new(alloc),
        listing: None,
        numbers: NumberList::new(alloc),
        reason: None,
    }
}

impl Command {
    /// Takes the word as the name of the project; tells whether it is one, and the first.
    fn take_name(&mut self, alloc: Global, word: &[u8]) -> Result<bool, AllocError>
        ensures { IfOk result (λ taken. (if taken then Some self.new else None) ≡ with_name self.old word.now) }
    {
        if self.name.is_some() {
            return Ok(false);
        }
        self.name = ProjectName::read(alloc, word)?;
        Ok(self.name.is_some())
    }

    /// Takes the word as one user more; tells whether it is one, and not too many.
    fn take_user(&mut self, alloc: Global, word: &[u8]) -> Result<bool, AllocError>
        ensures { IfOk result (λ taken. (if taken then Some self.new else None) ≡ with_user self.old word.now) }
    {
        if MOST <= self.users.len() {
            return Ok(false);
        }
        let Some(user) = User::read(alloc, word)? else {
            return Ok(false);
        };
        self.users.push(user)?;
        Ok(true)
    }

    /// Takes the word as one path more; tells whether it is one, and not too many.
    fn take_path(&mut self, alloc: Global, word: &[u8]) -> Result<bool, AllocError>
        ensures { IfOk result (λ taken. (if taken then Some self.new else None) ≡ with_path self.old word.now) }
    {
        if MOST <= self.paths.len() {
            return Ok(false);
        }
        let Some(path) = Path::read(alloc, word)? else {
            return Ok(false);
        };
        self.paths.push(path)?;
        Ok(true)
    }

    /// Takes the word as the path; tells whether it is one, and the first.
    fn take_one_path(&mut self, alloc: Global, word: &[u8]) -> Result<bool, AllocError>
        ensures { IfOk result (λ taken. (if taken then Some self.new else None) ≡ with_one_path self.old word.now) }
    {
        if 0 < self.paths.len() {
            return Ok(false);
        }
        self.take_path(alloc, word)
    }

    /// Takes the word as one path more that may be a test's; tells whether it is one, and not too many.
    fn take_test(&mut self, alloc: Global, word: &[u8]) -> Result<bool, AllocError>
        ensures { IfOk result (λ taken. (if taken then Some self.new else None) ≡ with_test self.old word.now) }
    {
        if word == b"aegis.conf".as_slice() {
            return Ok(false);
        }
        self.take_path(alloc, word)
    }

    /// Takes the word as the listing's; tells whether it is one, and the first.
    fn take_listing(&mut self, word: &[u8]) -> bool
        ensures { (if result then Some self.new else None) ≡ with_listing self.old word.now }
    {
        if self.listing.is_some() {
            return false;
        }
        self.listing = Listing::find(word);
        self.listing.is_some()
    }

    /// Takes the word as the next number; tells whether it is one.
    fn take_number(&mut self, word: &[u8]) -> Result<bool, AllocError>
        ensures { IfOk result (λ taken. (if taken then Some self.new else None) ≡ with_number self.old word.now) }
    {
        let Some(number) = next_number(self.numbers.len(), word) else {
            return Ok(false);
        };
        self.numbers.push(number)?;
        Ok(true)
    }

    /// Takes a plain word more; tells whether it is of its kind, and not too many.
    fn take_plain(&mut self, alloc: Global, word: &[u8]) -> Result<bool, AllocError>
        ensures { IfOk result (λ taken. (if taken then Some self.new else None) ≡ with_plain (row self.old.function) self.old word.now) }
    {
        match self.function.row() {
            Row::NewProject => self.take_name(alloc, word),
            Row::Users => self.take_user(alloc, word),
            Row::Copy | Row::Paths => self.take_path(alloc, word),
            Row::NewTest => self.take_test(alloc, word),
            Row::Report => self.take_one_path(alloc, word),
            Row::Listing => Ok(self.take_listing(word)),
            Row::Numbers => self.take_number(word),
            Row::Attributes
            | Row::ChangeAttributes
            | Row::Change
            | Row::Test
            | Row::Nothing
            | Row::Alone => Ok(false),
        }
    }

    /// Whether the option may still come.
    fn is_free(&self, option: Setting) -> bool
        ensures { result ≡ is_free self.now option }
    {
        match option {
            Setting::Project => self.project.is_none(),
            Setting::File => self.attributes.is_none(),
            Setting::Change => self.change.is_none(),
            Setting::Delta => self.delta.is_none(),
            Setting::Overwriting => !self.overwriting,
            Setting::Baseline | Setting::Regression => !(self.baseline || self.regression),
            Setting::Reason => self.reason.is_none(),
        }
    }

    /// Takes the word as the path of the file with attributes; tells whether it is one.
    fn take_attributes(&mut self, alloc: Global, value: &[u8]) -> Result<bool, AllocError>
        ensures { IfOk result (λ taken. (if taken then Some self.new else None) ≡ with_value Setting.File self.old value.now) }
    {
        self.attributes = Path::read(alloc, value)?;
        Ok(self.attributes.is_some())
    }

    /// Takes the word as the reason; tells whether it isn't too long.
    fn take_reason(&mut self, alloc: Global, value: &[u8]) -> Result<bool, AllocError>
        ensures { IfOk result (λ taken. (if taken then Some self.new else None) ≡ with_value Setting.Reason self.old value.now) }
    {
        if MOST_REASON_BYTES < value.len() {
            return Ok(false);
        }
        self.reason = Some(Text::of(Vec::from_slice(alloc, value)?));
        Ok(true)
    }

    /// Takes an option's value; tells whether it is of its kind.
    fn take_value(
        &mut self,
        alloc: Global,
        option: Setting,
        value: &[u8],
    ) -> Result<bool, AllocError>
        ensures { IfOk result (λ taken. (if taken then Some self.new else None) ≡ with_value option self.old value.now) }
    {
        match option {
            Setting::Project => {
                self.project = ProjectName::read(alloc, value)?;
                Ok(self.project.is_some())
            }
            Setting::File => self.take_attributes(alloc, value),
            Setting::Change => {
                self.change = ChangeNo::read(value);
                Ok(self.change.is_some())
            }
            Setting::Delta => {
                self.delta = Delta::read(value);
                Ok(self.delta.is_some())
            }
            Setting::Reason => self.take_reason(alloc, value),
            Setting::Overwriting | Setting::Baseline | Setting::Regression => Ok(false),
        }
    }

    /// Takes a flag.
    fn take_flag(&mut self, option: Setting)
        ensures { self.new ≡ with_flag option self.old }
    {
        match option {
            Setting::Overwriting => self.overwriting = true,
            Setting::Baseline => self.baseline = true,
            Setting::Regression => self.regression = true,
            Setting::Project | Setting::File | Setting::Change | Setting::Delta | Setting::Reason =>
                {}
        }
    }

    fn may_come(&self, listing: Option<Listing>, option: Setting) -> bool
        ensures { result ≡ may_come listing self.now option }
    {
        self.function.allows(listing, option) && self.is_free(option)
    }

    /// Takes an item more, or stops at its bad word.
    #[tactic(auto, unfolding(crate::specs::Meaning::step))]
    pub(crate) fn take_item(
        &mut self,
        alloc: Global,
        listing: Option<Listing>,
        at: usize,
        item: Item<'_>,
    ) -> Result<(), Stop>
        ensures taken { IfOk result (λ _. step listing self.old (item_seen at item.entry) ≡ Ok self.new) }
        ensures stops { IfErr result (λ e. Gives (Err e) (step listing self.old (item_seen at item.entry))) }
    {
        match item {
            Item::Plain(word) => bad_unless(self.take_plain(alloc, word)?, at),
            Item::Flag(option) => {
                if !self.may_come(listing, option) {
                    return Err(Stop::Bad(at));
                }
                self.take_flag(option);
                Ok(())
            }
            Item::Valued(option, value_at, value) => {
                if !self.may_come(listing, option) {
                    return Err(Stop::Bad(at));
                }
                bad_unless(self.take_value(alloc, option, value)?, value_at)
            }
            Item::Wrong => Err(Stop::Bad(at)),
        }
    }

    fn has_plain(&self) -> bool
        ensures { result ≡ has_plain (row self.now.function) self.now }
    {
        match self.function.row() {
            Row::NewProject => self.name.is_some(),
            Row::Users => 0 < self.users.len(),
            Row::Copy | Row::Paths | Row::NewTest | Row::Report => 0 < self.paths.len(),
            Row::Listing => self.listing.is_some(),
            Row::Numbers => 3 <= self.numbers.len(),
            Row::Attributes
            | Row::ChangeAttributes
            | Row::Change
            | Row::Test
            | Row::Nothing
            | Row::Alone => true,
        }
    }

    /// Whether nothing that is required is missing.
    #[tactic(auto, unfolding(crate::specs::Meaning::is_whole))]
    pub(crate) fn is_whole(&self) -> bool
        ensures { result ≡ is_whole self.now }
    {
        let row = self.function.row();
        self.has_plain()
            && (!row.needs_attributes() || self.attributes.is_some())
            && (!row.needs_change(self.listing) || self.change.is_some())
    }
}

/// Stops at the word at this place, unless it was taken.
fn bad_unless(taken: bool, at: usize) -> Result<(), Stop>
    ensures taken { IfOk result (λ _. taken ≡ true) }
    ensures left { IfErr result (λ _. taken ≡ false) }
    ensures stops { IfErr result (λ e. e ≡ stop.Bad at) }
{
    if taken { Ok(()) } else { Err(Stop::Bad(at)) }
}

fn next_number(before: usize, word: &[u8]) -> Option<u64>
    ensures { result ≡ next_number before word.now }
{
    if before == 0 {
        read_number(MOST_DIGITS, 0, u64::MAX, word)
    } else if before == 1 {
        read_number(MOST_DIGITS, 1, MOST_GENERATED_CHANGES, word)
    } else if before == 2 {
        read_number(MOST_DIGITS, 1, MOST_GENERATED_FILES, word)
    } else {
        None
    }
}

/// The command that is read so far, whose words go on with these from the second on.
pub(crate) fn said(alloc: Global, function: Function, words: &[String]) -> Result<Command, Stop>
    requires { length words.now < 4611686018427387904 }
    ensures { let is = items_from 2 false (map string_bytes words.now) in Gives result (reads (listing is) (blank function) is) }
{
    let listing = named_listing(words);
    let mut command = blank(alloc, function);
    let mut at = 2;
    let mut rest = words;
    while let Some((item, behind_at, behind)) = next_item(at, rest) {
        match command.take_item(alloc, listing, at, item) {
            Ok(()) => {}
            Err(stop) => return Err(stop),
        }
        at = behind_at;
        rest = behind;
    }
    Ok(command)
}

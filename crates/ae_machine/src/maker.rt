// Of whom the events of a command are.
ghost use Rattle.std.specs.Prelude.{◌≡◌, IfOk};
ghost use Rattle.ae_machine.specs.Verdict.{maker_by};

use ae_base::{Text, User};
use ae_words::Command;
use std::alloc::{AllocError, Global};
use std::marker::Model;

/// Who makes the events of a command, the moment, and the reason, where one is told.
#[derive(Drop)]
pub(crate) struct Maker<'a> {
    who: &'a User,
    when: u64,
    why: Option<&'a Text>,
}

impl<'a> Model for Maker<'a> {
    ghost use Rattle.std.specs.Prelude.{[], unwrap_or, option_copied};
    ghost use Rattle.ae_log.specs.Maker.{Maker as Made, made_by};

    ghost Value = { Made };

    ghost view = { λ a. made_by a.who.now a.when (unwrap_or (option_copied a.why) []) };
}

impl<'a> Maker<'a> {
    /// The reason is told where the command adds a row to its change's history.
    pub(crate) fn of(command: &'a Command, who: &'a User, when: u64) -> Maker<'a>
        ensures { result ≡ maker_by command.now who.now when }
    {
        let why = if command.function.adds_row() {
            command.reason.as_ref()
        } else {
            None
        };
        Maker { who, when, why }
    }

    pub(crate) fn who(&self) -> &'a User
        ensures { result.now ≡ self.now.who }
    {
        self.who
    }

    /// In seconds since 1970.
    pub(crate) fn when(&self) -> u64
        ensures { result ≡ self.now.when }
    {
        self.when
    }

    /// The reason; the empty text where none is told.
    pub(crate) fn why(&self, alloc: Global) -> Result<Text, AllocError>
        ensures { IfOk result (λ text. text ≡ self.now.why) }
    {
        match self.why {
            Some(text) => text.copy(alloc),
            None => Ok(Text::of(Vec::new(alloc))),
        }
    }
}

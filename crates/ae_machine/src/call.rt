// A command to the project that stands, with who gives it.
ghost use Rattle.std.specs.Prelude.{◌≡◌, option_copied};
ghost use Rattle.ae_types.specs.Sound.{Sound};
ghost use Rattle.ae_machine.specs.Call.{call_of, change_named, change_of};
ghost use Rattle.ae_machine.specs.Verdict.{maker_by};

use crate::maker::Maker;
use ae_base::User;
use ae_types::{Change, State};
use ae_words::Command;
use std::marker::Model;

/// The change that a command names, where it is there.
pub(crate) fn change_of<'a>(state: &'a State, command: &Command) -> Option<&'a Change>
    ensures { option_copied result ≡ change_named state.now command.now.change }
{
    state.change(command.change?)
}

/// A command to the project that stands, with who gives it.
#[derive(Drop)]
pub(crate) struct Call<'a> {
    state: &'a State,
    command: &'a Command,
    who: &'a User,
}

impl<'a> Model for Call<'a> {
    ghost use Rattle.ae_machine.specs.Call.{Call as Called};

    ghost Value = { Called };

    ghost view = { λ a. record { stands = a.state.now; command = a.command.now; who = a.who.now } };
}

impl<'a> Call<'a> {
    pub(crate) fn of(state: &'a State, command: &'a Command, who: &'a User) -> Call<'a>
        ensures { result ≡ call_of state.now command.now who.now }
    {
        Call {
            state,
            command,
            who,
        }
    }

    pub(crate) fn state(&self) -> &'a State
        ensures { result.now ≡ self.now.stands }
    {
        self.state
    }

    pub(crate) fn command(&self) -> &'a Command
        ensures { result.now ≡ self.now.command }
    {
        self.command
    }

    pub(crate) fn who(&self) -> &'a User
        ensures { result.now ≡ self.now.who }
    {
        self.who
    }

    /// Of whom its events are, where it is given at this moment.
    pub(crate) fn maker(&self, when: u64) -> Maker<'a>
        ensures { result ≡ maker_by self.now.command self.now.who when }
    {
        Maker::of(self.command, self.who, when)
    }

    /// The change that the command names, where it is there.
    pub(crate) fn change(&self) -> Option<&'a Change>
        ensures { option_copied result ≡ change_of self.now }
    {
        change_of(self.state, self.command)
    }

    /// What stands keeps the rules of the records.
    pub(crate) fn note_sound(&self)
        ensures { Sound self.now.stands }
    {
        self.state.note_sound();
    }
}

// A command, with what its answer hangs on beside the project and the directories.
ghost use Rattle.std.specs.Prelude.{◌≡◌, ◌≤◌, true};
ghost use Rattle.ae_base.specs.Limits.{last_moment};
ghost use Rattle.ae_words.specs.Formed.{IsFormed};
ghost use Rattle.ae_words.specs.Table.{is_one_command};

use ae_base::User;
use ae_words::Command;

/// A command as it is given: by whom, at which moment, in seconds since 1970, and whether its reply ends with the exit status.
#[derive(Clone, Copy)]
pub(crate) struct Request<'a> {
    pub command: &'a Command,
    pub who: &'a User,
    pub when: u64,
    pub status_line: bool,
    ghost formed: { IsFormed command.now },
    ghost one: { is_one_command command.now.function ≡ true },
    ghost moment: { when ≤ last_moment },
}

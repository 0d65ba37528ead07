// The command of each run, from what was read of aegis.conf.
ghost use Rattle.std.specs.Prelude.{◌≡◌, IfOk, IfSome, option_copied};
ghost use Rattle.std.specs.Option.{option_map};
ghost use Rattle.ae_conf.specs.Config.{template_of};
ghost use Rattle.ae_conf.specs.Values.{IsCommand};
ghost use Rattle.ae_machine.specs.Commands.{AreValues, GivesCommands, command_from, config_read, template_read};
ghost use Rattle.ae_machine.specs.declared.commands.ConfigRead.TheVariants.{Good};
ghost use Rattle.ae_machine.specs.Runs.{command_by_template};

use ae_base::{Kind, Refusal, Text};
use ae_conf::{ConfError, Config, Values, expand, read_config};
use std::alloc::{AllocError, Global};

/// What was read of aegis.conf: there is none; a line of it is wrong; or its commands.
#[derive(Drop)]
pub(crate) enum ConfigRead {
    Absent,
    Bad(u32),
    Good(Config),
}

/// What bytes of aegis.conf give, or no such file.
pub(crate) fn config_read(alloc: Global, bytes: Option<&Text>) -> Result<ConfigRead, AllocError>
    ensures read { IfOk result (λ read. read ≡ config_read (option_copied bytes.entry)) }
    ensures commands { IfOk result GivesCommands }
{
    let Some(bytes) = bytes else {
        return Ok(ConfigRead::Absent);
    };
    match read_config(alloc, bytes.bytes()) {
        Ok(config) => Ok(ConfigRead::Good(config)),
        Err(ConfError::Line(line)) => Ok(ConfigRead::Bad(line)),
        Err(ConfError::Memory) => Err(AllocError),
    }
}

// The command that a template gives, where it is there.
fn expanded(
    alloc: Global,
    template: Option<&Text>,
    line: u32,
    values: &Values,
) -> Result<Result<Text, Refusal>, AllocError>
    requires template { IfSome (option_copied template) IsCommand }
    requires values { AreValues values.now }
    ensures command { IfOk result (λ command. command ≡ command_by_template values.now (option_map (λ text. template_of text line) (option_copied template.entry))) }
    ensures may_run { IfOk result (λ command. IfOk command IsCommand) }
{
    let Some(template) = template else {
        return Ok(Err(Refusal::NoCommand));
    };
    match expand(alloc, template, line, values) {
        Ok(command) => Ok(Ok(command)),
        Err(ConfError::Line(line)) => Ok(Err(Refusal::BadConfig(line))),
        Err(ConfError::Memory) => Err(AllocError),
    }
}

// The command of a kind of runs, by the commands that are given.
fn command_given(
    alloc: Global,
    config: &Config,
    kind: Kind,
    values: &Values,
) -> Result<Result<Text, Refusal>, AllocError>
    requires config { GivesCommands (Good config.now) }
    requires values { AreValues values.now }
    ensures command { IfOk result (λ command. command ≡ command_by_template values.now (template_read kind config.now)) }
    ensures may_run { IfOk result (λ command. IfOk command IsCommand) }
{
    match kind {
        Kind::Build => expanded(alloc, config.build.as_ref(), config.build_line, values),
        Kind::Test => expanded(alloc, config.test.as_ref(), config.test_line, values),
        Kind::BaselineTest => expanded(alloc, config.test.as_ref(), config.test_line, values),
        Kind::RegressionTest => expanded(alloc, config.test.as_ref(), config.test_line, values),
    }
}

/// The command of a kind of runs with these values, or why there is none.
pub(crate) fn command_from(
    alloc: Global,
    read: &ConfigRead,
    kind: Kind,
    values: &Values,
) -> Result<Result<Text, Refusal>, AllocError>
    requires read { GivesCommands read.now }
    requires values { AreValues values.now }
    ensures command { IfOk result (λ command. command ≡ command_from values.now kind read.now) }
    ensures may_run { IfOk result (λ command. IfOk command IsCommand) }
{
    match read {
        ConfigRead::Good(config) => command_given(alloc, config, kind, values),
        ConfigRead::Bad(line) => Ok(Err(Refusal::BadConfig(*line))),
        ConfigRead::Absent => Ok(Err(Refusal::NoCommand)),
    }
}

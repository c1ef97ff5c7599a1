// What the words of the command line are read by.
ghost use Rattle.std.specs.Prelude.{◌≡◌};
ghost use Rattle.clap.specs.Matches.{found_of};
ghost use Rattle.command_words.specs.Words.{text_given};

use super::forms::{COMMANDS, CommandForm, OptionForm, Rules};
use clap::{Arg, ArgMatches, Command};
use std::alloc::{AllocError, Global};

/// The version of the newest entry of CHANGELOG.md.
const VERSION: &str = "0.23.0";

/// A long option, wherever it need not be given.
fn option<'a>(alloc: Global, form: &OptionForm) -> Arg<'a> {
    Arg::new(alloc, form.name)
        .long(form.name)
        .value_name(form.value_name)
        .help(form.help)
        .action(form.value.action())
        .value_parser(form.value.parser())
}

/// An option that is given when it has to be.
fn needed<'a>(option: Arg<'a>, rules: Rules) -> Result<Arg<'a>, AllocError> {
    option
        .required(rules.required)
        .required_unless_present_any(rules.unless)?
        .requires_all(rules.with)?
        .conflicts_with_all(rules.apart)
}

/// Options, one after the other.
fn options<'a>(alloc: Global, forms: &[OptionForm]) -> Result<Vec<Arg<'a>>, AllocError> {
    let mut options = Vec::with_capacity(alloc, forms.len())?;
    for form in forms {
        options.push(needed(option(alloc, form), form.need.rules())?)?;
    }
    Ok(options)
}

/// A command with its options.
fn command<'a>(alloc: Global, form: &CommandForm) -> Result<Command<'a>, AllocError> {
    let options = options(alloc, form.options)?;
    Command::new(alloc, form.name)
        .about(form.about)
        .after_help(form.example)
        .args(options)
}

/// Commands, one after the other.
fn commands<'a>(alloc: Global, all: &[CommandForm]) -> Result<Vec<Command<'a>>, AllocError> {
    let mut commands = Vec::with_capacity(alloc, all.len())?;
    for form in all {
        commands.push(command(alloc, form)?)?;
    }
    Ok(commands)
}

/// All commands.
fn all_commands<'a>(alloc: Global) -> Result<Vec<Command<'a>>, AllocError> {
    commands(alloc, &COMMANDS)
}

/// All that the program understands. It tells its version by `--version` and `-V`.
pub fn desk_command<'a>(alloc: Global) -> Result<Command<'a>, AllocError> {
    let commands = all_commands(alloc)?;
    Command::new(alloc, "plandesk")
        .about("The desk of a current plan")
        .version(VERSION)
        .subcommand_required(true)
        .subcommands(commands)
}

/// The value of a required option, which a parse that succeeded has given.
pub fn value_of<'a>(given: &ArgMatches<'a>, name: &str) -> &'a str
    ensures { result.now ≡ text_given (found_of given.now) name.now }
{
    given.get_str(name).unwrap_or("")
}

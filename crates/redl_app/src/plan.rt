//! What a command names, by its plan.

ghost use Rattle.std.specs.Prelude.{◌≡◌};
ghost use Rattle.std.specs.Option.{option_copied};
ghost use Rattle.redl_outcome.specs.Plans.{package_of, plan};
ghost use Rattle.redl_words.specs.Commands.{HasUtf8};
ghost use Rattle.redl_words.specs.Views.{command_of};

use redl_inputs::name_of;
use redl_words::Command;

/// The name of the command's package, if it has one.
pub(crate) fn package(command: &Command) -> Option<&str>
    requires { HasUtf8 (command_of command.now) }
    ensures { option_copied result ≡ package_of (plan (command_of command.now)).makes }
{
    match command {
        Command::Settle { package, .. }
        | Command::Text { package, .. }
        | Command::Write { package, .. }
        | Command::Check { package } => Some(name_of(package)),
        Command::List(command) => Some(name_of(&command.package)),
        Command::Report(command) => Some(name_of(&command.package)),
        Command::Page(command) => Some(name_of(&command.package)),
        Command::Decide(command) => Some(name_of(&command.package)),
        Command::Resume(command) => Some(name_of(&command.package)),
        Command::Join { .. } | Command::Sample { .. } => None,
    }
}

/// The name of the format of listings that the command asks for, if it asks for one.
pub(crate) fn format(command: &Command) -> Option<&str>
    requires { HasUtf8 (command_of command.now) }
    ensures { option_copied result ≡ (plan (command_of command.now)).format }
{
    match command {
        Command::List(command) => Some(name_of(&command.format)),
        _ => None,
    }
}

/// The name of the format of reports that the command asks for, if it asks for one.
pub(crate) fn report(command: &Command) -> Option<&str>
    requires { HasUtf8 (command_of command.now) }
    ensures { option_copied result ≡ (plan (command_of command.now)).report }
{
    match command {
        Command::Report(command) => Some(name_of(&command.format)),
        _ => None,
    }
}

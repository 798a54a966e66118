//! A law of all command lines.

ghost use Rattle.std.specs.Prelude.{◌≡◌, ℕ, List};
ghost use Rattle.redl_words.specs.Commands.{Command, IsCommand};

/// A list of words is the command line of at most one command.
pub fn one_command()
    ensures { (words : List (List ℕ)) (one other : Command) → IsCommand words one → IsCommand words other → one ≡ other }
{}

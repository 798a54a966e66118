//! The words of a command line, as the program copies them.

ghost use Rattle.std.specs.Prelude.{◌≡◌, ◌++◌, ◌∷◌, [], drop, map, All, IfOk, IfErr, IsErr, IsOk, IsUtf8, OnOk, OnErr};
ghost use Rattle.std.specs.String.{string_bytes};
ghost use Rattle.std.specs.Vec.Iter.{into_iter_items};
ghost use Rattle.redl_words.specs.declared.error.WordsError.TheVariants.{NoMemory};

use crate::error::WordsError;
use redl_io::Text;
use std::alloc::{AllocError, Global};
use std::env::Args;
use std::io::ErrorKind;
use std::rt::Env;
use std::{env, io};

/// Adds a copy of a word. `Err` means out of memory.
pub fn add_word(alloc: Global, words: &mut Vec<Text>, word: &str) -> Result<(), AllocError>
    requires { All IsUtf8 words.old.items }
    ensures added { OnOk result (words.new.items ≡ words.old.items ++ word.now ∷ []) }
    ensures kept { OnErr result (words.new.items ≡ words.old.items) }
    ensures utf8 { All IsUtf8 words.new.items }
{
    let word = Text::copy_of(alloc, word.as_bytes())?;
    words.push(word)?;
    Ok(())
}

/// The words of the command line, after the program's name. `Usage` where one of them isn't UTF-8.
pub fn given_words(rt: &(impl Env + AllocGlobal)) -> Result<Vec<Text>, WordsError>
    ensures { IfOk result (λ words. All IsUtf8 words.items) }
{
    words_of(rt.alloc(), env::args(rt))
}

/// The words after the program's name, of the arguments as the system gave them. `Usage` where one of them isn't UTF-8, and never where
/// they could be read.
pub fn words_of(alloc: Global, args: io::Result<Args>) -> Result<Vec<Text>, WordsError>
    ensures given { IfOk result (λ words. IfOk args (λ all. words.items ≡ map string_bytes (drop 1 (into_iter_items all)))) }
    ensures unread { IsErr args → IsErr result }
    ensures no_memory { IsOk args → IfErr result (λ error. error ≡ NoMemory) }
    ensures utf8 { IfOk result (λ words. All IsUtf8 words.items) }
{
    match args {
        Ok(args) => match copy_words(alloc, args) {
            Ok(words) => Ok(words),
            Err(_) => Err(WordsError::NoMemory),
        },
        Err(error) if error.kind() == ErrorKind::OutOfMemory => Err(WordsError::NoMemory),
        Err(_) => Err(WordsError::Usage),
    }
}

// The words after the program's name.
fn copy_words(alloc: Global, mut args: Args) -> Result<Vec<Text>, AllocError>
    ensures words { IfOk result (λ words. words.items ≡ map string_bytes (drop 1 (into_iter_items args))) }
    ensures utf8 { IfOk result (λ words. All IsUtf8 words.items) }
{
    let mut words = Vec::new(alloc);
    let _program = args.next();
    for word in args {
        add_word(alloc, &mut words, word.as_str())?;
    }
    Ok(words)
}

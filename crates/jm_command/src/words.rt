// What the words of the command line ask for.

ghost use Rattle.std.specs.Prelude.{◌≡◌, IfOk, map, string_bytes};
ghost use Rattle.command_words.specs.Commands.{command_of};

use command_words::{Command, WordsError, read_words};
use jm_base::{M, NoMemory};
use std::alloc::Global;

/// What the words ask for, if they are a command line.
pub fn command_of(alloc: Global, words: &Vec<String>) -> M<Option<Command>>
    ensures { IfOk result (λ command. command ≡ command_of (map string_bytes words.now.items)) }
{
    match read_words(alloc, words) {
        Ok(command) => Ok(Some(command)),
        Err(WordsError::BadWords) => Ok(None),
        Err(WordsError::NoMemory) => Err(NoMemory),
    }
}

// The words of a call.
ghost use Rattle.std.specs.Prelude.{◌≡◌, map};
ghost use Rattle.std.specs.String.{string_bytes};
ghost use Rattle.job_commands.specs.Words.{command_of, read_of};

/// A command that needs no link.
#[derive(Clone, Copy, Debug, PartialEq, Eq)]
pub enum Command {
    Init,
    Enqueue,
}

/// The command that a word names.
fn command_of(word: &String) -> Option<Command>
    ensures { result ≡ command_of (string_bytes word.now) }
{
    match word.as_str() {
        "init" => Some(Command::Init),
        "enqueue" => Some(Command::Enqueue),
        _ => None,
    }
}

/// The command that the words are; else the first word at which none continues, or the number of words where one more is wanted.
pub fn read_words(words: &[String]) -> Result<Command, usize>
    ensures { result ≡ read_of (map string_bytes words.now) }
{
    match words {
        [] => Err(0),
        [word, more @ ..] => match command_of(word) {
            None => Err(0),
            Some(command) => { if more.is_empty() { Ok(command) } else { Err(1) } }
        },
    }
}

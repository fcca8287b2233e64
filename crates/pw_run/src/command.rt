//! The words after the program's name.
ghost use Rattle.std.specs.Prelude.{◌≡◌, ◌≢◌, [], ◌∷◌, codes, map, string_bytes, IfSome, Some};
ghost use Rattle.pw_run.specs.Command.{IsCommand};

use crate::TextCommand;
use stream_dump::MethodNames;
use text_fields::{number, small_number};

/// The most calls that `load` makes.
pub const MAX_LOAD: u32 = 30_000;

/// What `replay` writes.
#[derive(Clone, Copy, Debug, PartialEq, Eq)]
pub enum Form {
    /// The report.
    Report,
    /// The frames of all packets sent, and nothing else.
    Raw,
    /// The journal's text.
    Journal,
}

/// A recorded command.
#[derive(Drop)]
pub enum Command<'a> {
    /// A recorded stream of a client is served.
    Replay(Form),
    /// A text is read, and what is found in it is told.
    Text(TextCommand),
    /// A stream of so many calls, made from this number, is served.
    Load { calls: u32, seed: u64 },
    /// What is in a recorded stream of either direction is told, with the names of these methods and of those that the program knows.
    Dump(MethodNames<'a>),
}

impl<'a> Command<'a> {
    /// The command that these words name.
    pub fn of(words: &'a [String]) -> Option<Command<'a>>
        ensures some { IfSome result (λ command. IsCommand (map string_bytes words.now) command) }
        ensures only { (command : Command) → IsCommand (map string_bytes words.now) command → result ≡ Some command }
    {
        match words {
            [word, names @ ..] if word.as_str() == "dump" => {
                Some(Command::Dump(MethodNames::of(names)?))
            }
            [word] => of_one(word.as_str()),
            [word, form] => of_two(word.as_str(), form.as_str()),
            [word, calls, seed] => of_three(word.as_str(), calls.as_str(), seed.as_str()),
            _ => None,
        }
    }
}

fn of_one<'a>(word: &str) -> Option<Command<'a>>
    requires { word.now ≢ codes "dump" }
    ensures some { IfSome result (λ command. IsCommand (word.now ∷ []) command) }
    ensures only { (command : Command) → IsCommand (word.now ∷ []) command → result ≡ Some command }
{
    match word {
        "replay" => Some(Command::Replay(Form::Report)),
        "check" => Some(Command::Text(TextCommand::Check)),
        "detoken" => Some(Command::Text(TextCommand::Detoken)),
        "link" => Some(Command::Text(TextCommand::Link)),
        "route" => Some(Command::Text(TextCommand::Route)),
        _ => None,
    }
}

fn of_two<'a>(word: &str, form: &str) -> Option<Command<'a>>
    requires { word.now ≢ codes "dump" }
    ensures some { IfSome result (λ command. IsCommand (word.now ∷ form.now ∷ []) command) }
    ensures only { (command : Command) → IsCommand (word.now ∷ form.now ∷ []) command → result ≡ Some command }
{
    if word != "replay" {
        return None;
    }
    match form {
        "raw" => Some(Command::Replay(Form::Raw)),
        "journal" => Some(Command::Replay(Form::Journal)),
        _ => None,
    }
}

fn of_three<'a>(word: &str, calls: &str, seed: &str) -> Option<Command<'a>>
    requires { word.now ≢ codes "dump" }
    ensures some { IfSome result (λ command. IsCommand (word.now ∷ calls.now ∷ seed.now ∷ []) command) }
    ensures only { (command : Command) → IsCommand (word.now ∷ calls.now ∷ seed.now ∷ []) command → result ≡ Some command }
{
    if word != "load" {
        return None;
    }
    let calls = small_number(calls.as_bytes())?;
    let seed = number(seed.as_bytes())?;
    if calls > MAX_LOAD {
        return None;
    }
    Some(Command::Load { calls, seed })
}

//! The words of the commands that work on threads.
ghost use Rattle.std.specs.Prelude.{◌≡◌, ◌↔◌, [], ◌∷◌, map, string_bytes, codes, IfSome, IsTrue, Some};
ghost use Rattle.pw_run.specs.LiveCommand.{IsCrewSize, IsLiveCommand};

use crate::ClientCommand;
use text_fields::small_number;

/// The most workers of a session.
pub const MAX_WORKERS: u32 = 16;

/// The most connections that `serve` serves.
pub const MAX_CONNECTIONS: u32 = 1_000;

/// The most connections that `host` serves.
pub const MAX_HOSTED: u32 = 4_294_967_295;

/// A command that works on threads. Where it listens at a path or connects to one, that is the second word.
#[derive(Clone, Copy, Debug, PartialEq, Eq)]
pub enum LiveCommand {
    /// A recorded stream of a client is served by so many workers.
    Crew { workers: u32 },
    /// So many connections are served in turn, each by so many workers.
    Serve { workers: u32, connections: u32 },
    /// Connections are served in turn, each by so many workers, and a fault of one doesn't end the run.
    Host { workers: u32 },
    /// Frames go between two links, where one address lies at the right and another at the left. The links are at the paths
    /// of the second and the third word.
    Bridge { at_right: u32, at_left: u32 },
    /// A client does this over a link.
    Client(ClientCommand),
}

impl LiveCommand {
    /// The command that these words name.
    pub fn of(words: &[String]) -> Option<LiveCommand>
        ensures some { IfSome result (λ command. IsLiveCommand (map string_bytes words.now) command) }
        ensures only { (command : LiveCommand) → IsLiveCommand (map string_bytes words.now) command → result ≡ Some command }
    {
        match words {
            [word, workers] => of_two(word.as_str(), workers.as_str()),
            [word, path, workers] => of_three(word.as_str(), path.as_str(), workers.as_str()),
            [word, path, first, second] => of_four(
                word.as_str(),
                path.as_str(),
                first.as_str(),
                second.as_str(),
            ),
            [word, left, right, at_right, at_left] => of_five(
                word.as_str(),
                left.as_str(),
                right.as_str(),
                at_right.as_str(),
                at_left.as_str(),
            ),
            _ => None,
        }
    }
}

fn of_two(word: &str, workers: &str) -> Option<LiveCommand>
    ensures some { IfSome result (λ command. IsLiveCommand (word.now ∷ workers.now ∷ []) command) }
    ensures only { (command : LiveCommand) → IsLiveCommand (word.now ∷ workers.now ∷ []) command → result ≡ Some command }
{
    if word != "crew" {
        return None;
    }
    let workers = small_number(workers.as_bytes())?;
    if !is_crew_size(workers) {
        return None;
    }
    Some(LiveCommand::Crew { workers })
}

fn of_three(word: &str, path: &str, workers: &str) -> Option<LiveCommand>
    ensures some { IfSome result (λ command. IsLiveCommand (word.now ∷ path.now ∷ workers.now ∷ []) command) }
    ensures only { (command : LiveCommand) → IsLiveCommand (word.now ∷ path.now ∷ workers.now ∷ []) command → result ≡ Some command }
{
    if word != "host" || path.is_empty() {
        return None;
    }
    let workers = small_number(workers.as_bytes())?;
    if !is_crew_size(workers) {
        return None;
    }
    Some(LiveCommand::Host { workers })
}

fn of_four(word: &str, path: &str, first: &str, second: &str) -> Option<LiveCommand>
    ensures some { IfSome result (λ command. IsLiveCommand (word.now ∷ path.now ∷ first.now ∷ second.now ∷ []) command) }
    ensures only { (command : LiveCommand) → IsLiveCommand (word.now ∷ path.now ∷ first.now ∷ second.now ∷ []) command →
        result ≡ Some command }
{
    if word == "serve" {
        return serve_of(path, first, second);
    }
    let command = ClientCommand::of(word, path, first, second)?;
    Some(LiveCommand::Client(command))
}

// What stands behind the word `serve`.
fn serve_of(path: &str, workers: &str, connections: &str) -> Option<LiveCommand>
    ensures some { IfSome result (λ command. IsLiveCommand (codes "serve" ∷ path.now ∷ workers.now ∷ connections.now ∷ []) command) }
    ensures only { (command : LiveCommand) → IsLiveCommand (codes "serve" ∷ path.now ∷ workers.now ∷ connections.now ∷ []) command →
        result ≡ Some command }
{
    if path.is_empty() {
        return None;
    }
    let workers = small_number(workers.as_bytes())?;
    let connections = small_number(connections.as_bytes())?;
    if !is_crew_size(workers) || !(1..=MAX_CONNECTIONS).contains(&connections) {
        return None;
    }
    Some(LiveCommand::Serve {
        workers,
        connections,
    })
}

fn of_five(
    word: &str,
    left: &str,
    right: &str,
    at_right: &str,
    at_left: &str,
) -> Option<LiveCommand>
    ensures some { IfSome result (λ command. IsLiveCommand (word.now ∷ left.now ∷ right.now ∷ at_right.now ∷ at_left.now ∷ []) command) }
    ensures only { (command : LiveCommand) → IsLiveCommand (word.now ∷ left.now ∷ right.now ∷ at_right.now ∷ at_left.now ∷ []) command →
        result ≡ Some command }
{
    if word != "bridge" || left.is_empty() || right.is_empty() {
        return None;
    }
    let at_right = small_number(at_right.as_bytes())?;
    let at_left = small_number(at_left.as_bytes())?;
    if at_right == at_left {
        return None;
    }
    Some(LiveCommand::Bridge { at_right, at_left })
}

fn is_crew_size(workers: u32) -> bool
    ensures { IsTrue result ↔ IsCrewSize workers }
{
    (1..=MAX_WORKERS).contains(&workers)
}

//! The words of the commands of a client.
ghost use Rattle.std.specs.Prelude.{◌≡◌, ℕ, ◌^◌, ◌<◌, ◌≤◌, [], ◌∷◌, IfSome, Some};
ghost use Rattle.std.specs.Fmt.{decimal};
ghost use Rattle.transfer_base.specs.declared.limits.TheConstants.{MAX_RESOURCE};
ghost use Rattle.pw_run.specs.ClientCommand.{IsClientCommand, IsWatchLimit};

use text_fields::{number, small_number};
use transfer_base::MAX_RESOURCE;

/// The most messages that `watch` waits for.
pub const MAX_WATCH: u32 = 64;

/// What a client does over a link to a path.
#[derive(Clone, Copy, Debug, PartialEq, Eq)]
pub enum ClientCommand {
    /// A resource is read into the store, from an offset on, in bytes.
    Get { resource: u32, offset: u64 },
    /// A resource of the store is written, from an offset on, in bytes.
    Put { resource: u32, offset: u64 },
    /// Count is called with a number, and the call is cancelled after so many messages.
    Watch { number: u8, limit: u32 },
}

impl ClientCommand {
    /// The command that four words name, of which the second is a path.
    pub(crate) fn of(word: &str, path: &str, first: &str, second: &str) -> Option<ClientCommand>
        ensures some { IfSome result (λ command. IsClientCommand (word.now ∷ path.now ∷ first.now ∷ second.now ∷ []) command) }
        ensures only { (command : ClientCommand) → IsClientCommand (word.now ∷ path.now ∷ first.now ∷ second.now ∷ []) command →
            result ≡ Some command }
    {
        if path.is_empty() {
            return None;
        }
        match word {
            "get" => {
                let (resource, offset) = resource_from(first, second)?;
                Some(ClientCommand::Get { resource, offset })
            }
            "put" => {
                let (resource, offset) = resource_from(first, second)?;
                Some(ClientCommand::Put { resource, offset })
            }
            "watch" => {
                let (number, limit) = watch_of(first, second)?;
                Some(ClientCommand::Watch { number, limit })
            }
            _ => None,
        }
    }
}

// A resource, and an offset in it.
fn resource_from(resource: &str, offset: &str) -> Option<(u32, u64)>
    ensures some { IfSome result (λ found. (resource.now ≡ decimal found.0) × (offset.now ≡ decimal found.1) × (found.1 ≤ MAX_RESOURCE)) }
    ensures only { (id at : ℕ) → resource.now ≡ decimal id → offset.now ≡ decimal at → id < 2 ^ 32 → at ≤ MAX_RESOURCE →
        result ≡ Some (id, at) }
{
    let resource = small_number(resource.as_bytes())?;
    let offset = number(offset.as_bytes())?;
    if offset > MAX_RESOURCE {
        return None;
    }
    Some((resource, offset))
}

// The number for Count, and how many messages are waited for.
fn watch_of(number: &str, limit: &str) -> Option<(u8, u32)>
    ensures some { IfSome result (λ found. (number.now ≡ decimal found.0) × (limit.now ≡ decimal found.1) × IsWatchLimit found.1) }
    ensures only { (n most : ℕ) → number.now ≡ decimal n → limit.now ≡ decimal most → n < 2 ^ 8 → IsWatchLimit most →
        result ≡ Some (n, most) }
{
    let number = u8::try_from(small_number(number.as_bytes())?).ok()?;
    let limit = small_number(limit.as_bytes())?;
    if !(1..=MAX_WATCH).contains(&limit) {
        return None;
    }
    Some((number, limit))
}

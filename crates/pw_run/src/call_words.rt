//! The words of `call`.
ghost use Rattle.std.specs.Prelude.{◌≡◌, ◌≢◌, ◌||◌, ◌==◌, ℕ, List, not, true, [], ◌∷◌, codes, length, map, string_bytes, IfNone, IfSome, IsSome, Option, Some};
ghost use Rattle.rpc_ids.specs.declared.method.Kind.{Kind as Manner};
ghost use Rattle.run_report.specs.Lines.{kind_name};
ghost use Rattle.pw_run.specs.CallCommand.{AreCall, FitsKind, IsBehind, IsNoCall, TellEach};

use crate::method_id::read_id;
use crate::payload::is_payload;
use crate::trailing::number_behind;
use live_client::MAX_MESSAGES;
use rpc_ids::Kind;

/// The most messages that a client of `call` streams.
pub const MAX_SAID: usize = 64;

/// The longest that `call` waits, in milliseconds.
pub const MAX_WITHIN: u32 = 3_600_000;

/// The words of `call`, as they stand.
#[derive(Clone, Copy, Debug, PartialEq, Eq)]
pub(crate) struct CallWords<'a> {
    pub path: &'a str,
    /// The id of the service.
    pub service: u32,
    /// The id of the method.
    pub method: u32,
    pub kind: Kind,
    /// The payload of the request, or the messages, in digits.
    pub payloads: &'a [String],
    /// How many messages are waited for.
    pub limit: Option<u32>,
    /// How long they are waited for, in milliseconds.
    pub within: Option<u32>,
}

impl<'a> CallWords<'a> {
    /// These words, where they are those of a call.
    pub(crate) fn of(words: &'a [String]) -> Option<CallWords<'a>>
        ensures some { IfSome result (AreCall (map string_bytes words.now)) }
        ensures none { IfNone result (IsNoCall (map string_bytes words.now)) }
    {
        if words.len() < 5 || words[0].as_str() != "call" {
            return None;
        }
        with_head(
            words[1].as_str(),
            words[2].as_str(),
            words[3].as_str(),
            words[4].as_str(),
            &words[5..],
        )
    }
}

// The words of a call, by those behind the first.
fn with_head<'a>(
    path: &'a str,
    service: &str,
    method: &str,
    kind: &str,
    rest: &'a [String],
) -> Option<CallWords<'a>>
    ensures some { IfSome result (AreCall (codes "call" ∷ path.now ∷ service.now ∷ method.now ∷ kind.now ∷ map string_bytes rest.now)) }
    ensures none { IfNone result (IsNoCall (codes "call" ∷ path.now ∷ service.now ∷ method.now ∷ kind.now ∷ map string_bytes rest.now)) }
{
    let service = read_id(service)?;
    let method = read_id(method)?;
    let kind = kind_of(kind)?;
    if path.is_empty() || service == 0 || method == 0 {
        return None;
    }
    let said = said_behind(kind, rest)?;
    Some(CallWords {
        path,
        service,
        method,
        kind,
        payloads: said.payloads,
        limit: said.limit,
        within: said.within,
    })
}

// The kind of a method.
fn kind_of(word: &str) -> Option<Kind>
    ensures some { IfSome result (λ kind. word.now ≡ kind_name kind) }
    ensures only { (kind : Manner) → word.now ≡ kind_name kind → result ≡ Some kind }
{
    match word {
        "unary" => Some(Kind::Unary),
        "server" => Some(Kind::ServerStream),
        "client" => Some(Kind::ClientStream),
        "bidi" => Some(Kind::Bidi),
        _ => None,
    }
}

// What stands behind the kind.
#[derive(Clone, Copy, Debug)]
struct Said<'a> {
    payloads: &'a [String],
    limit: Option<u32>,
    within: Option<u32>,
}

fn said_behind<'a>(kind: Kind, words: &'a [String]) -> Option<Said<'a>>
    ensures some { IfSome result (λ s. IsBehind kind (map string_bytes words.now) (map string_bytes s.payloads.now) s.limit s.within) }
    ensures only { (payloads : List (List ℕ)) (limit within : Option ℕ) → IsBehind kind (map string_bytes words.now) payloads limit within → IsSome result }
{
    let (limited, within) = number_behind(words, "within", MAX_WITHIN)?;
    let (payloads, limit) = number_behind(limited, "limit", MAX_MESSAGES)?;
    if !fits_kind(kind, payloads.len()) {
        return None;
    }
    if !tell_each(payloads) {
        return None;
    }
    Some(Said {
        payloads,
        limit,
        within,
    })
}

// Whether so many payloads go with a method of this kind.
fn fits_kind(kind: Kind, count: usize) -> bool
    ensures some { result ≡ true → FitsKind kind count }
    ensures only { FitsKind kind count → result ≡ true }
{
    match kind {
        Kind::Unary | Kind::ServerStream => count == 1,
        Kind::ClientStream | Kind::Bidi => count <= MAX_SAID,
    }
}

// Whether each word tells a payload.
fn tell_each(words: &[String]) -> bool
    ensures some { result ≡ true → (told : List (List ℕ)) × TellEach (map string_bytes words.now) told }
    ensures only { (told : List (List ℕ)) → TellEach (map string_bytes words.now) told → result ≡ true }
{
    for word in words {
        if !is_payload(word.as_str()) {
            return false;
        }
    }
    true
}

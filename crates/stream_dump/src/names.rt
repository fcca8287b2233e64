//! The names of methods.

/// A method by its names: a frame that carries the hashes of them is told with the names.
#[derive(Clone, Copy, Debug, PartialEq, Eq)]
pub struct MethodName<'a> {
    /// The service's full name, as `demo.Demo`.
    pub service: &'a [u8],
    /// The method's bare name, as `Echo`.
    pub method: &'a [u8],
}

impl Default for MethodName<'_> {
    fn default() -> Self {
        MethodName {
            service: b"",
            method: b"",
        }
    }
}

ghost use Rattle.std.specs.Prelude.{◌≡◌};
ghost use Rattle.stream_dump.specs.Names.{has_ids, has_service, method_text, name_of, names_of, service_text};
ghost use Rattle.stream_dump.specs.Words.{word_text};

use crate::words::Word;
use rpc_ids::hash_name;

/// The service with this id.
pub(crate) fn service_word<'n, 'a>(names: &[MethodName<'n>], service: u32) -> Word<'n, 'a>
    ensures { word_text result ≡ service_text (names_of names.now) service }
{
    for name in names {
        if has_service(name, service) {
            return Word::Name(name.service);
        }
    }
    Word::Id(service)
}

/// The method with these ids of a service and of itself.
pub(crate) fn method_word<'n, 'a>(
    names: &[MethodName<'n>],
    service: u32,
    method: u32,
) -> Word<'n, 'a>
    ensures { word_text result ≡ method_text (names_of names.now) service method }
{
    for name in names {
        if has_ids(name, service, method) {
            return Word::Name(name.method);
        }
    }
    Word::Id(method)
}

fn has_service(name: &MethodName<'_>, service: u32) -> bool
    ensures { result ≡ has_service service (name_of name.now) }
{
    hash_name(name.service) == service
}

fn has_ids(name: &MethodName<'_>, service: u32, method: u32) -> bool
    ensures { result ≡ has_ids service method (name_of name.now) }
{
    hash_name(name.service) == service && hash_name(name.method) == method
}

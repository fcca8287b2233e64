//! Methods that are named by words.
ghost use Rattle.std.specs.Prelude.{◌≡◌, ◌+◌, ◌≤◌, ◌++◌, ℕ, List, length, map, string_bytes, IfSome, IsSomeAnd, Some};
ghost use Rattle.std.specs.List.{list_all};
ghost use Rattle.stream_dump.specs.Named.{AreNamed, IsNamed, is_name, is_name_octet};
ghost use Rattle.stream_dump.specs.Names.{Name, known_names, name_of, names_of};

use crate::MethodName;
use crate::known::KNOWN;
use arrayvec::ArrayVec;
use std::marker::Model;
use text_fields::split_at;

/// The most methods that words name.
pub const MAX_NAMED: usize = 64;

/// The most methods of a list.
pub const MAX_NAMES: usize = 72;

/// The byte between the name of a service and that of a method.
pub const SLASH: u8 = b'/';

/// Methods by their names. It takes no memory: names are lent.
#[derive(Drop)]
pub struct MethodNames<'a> {
    names: ArrayVec<MethodName<'a>, MAX_NAMES>,
}

impl<'a> Model for MethodNames<'a> {
    ghost use Rattle.std.specs.Prelude.{List};
    ghost use Rattle.stream_dump.specs.Names.{Name, names_of};

    ghost Value = { List Name };

    ghost view = { λ m. names_of m.names.items };
}

impl<'a> MethodNames<'a> {
    /// The methods that these words name: at most 64, each by the name of its service, a slash and its own name. A name has letters,
    /// digits, underscores and dots, and isn't empty.
    pub fn of(words: &'a [String]) -> Option<MethodNames<'a>>
        ensures some { IfSome result (λ names. AreNamed (map string_bytes words.now) names) }
        ensures only { (names : List Name) → AreNamed (map string_bytes words.now) names → result ≡ Some names }
    {
        if words.len() > MAX_NAMED {
            return None;
        }
        let mut names = ArrayVec::new();
        for word in words {
            names.push(named(word.as_bytes())?);
        }
        Some(MethodNames { names })
    }

    /// Adds those that the program knows: of the services that it serves, and of transfers.
    pub fn add_known(&mut self)
        requires { length self.old ≤ MAX_NAMED }
        ensures { self.new ≡ self.old ++ known_names }
    {
        self.add(KNOWN);
    }

    // Adds these methods behind those that are there.
    fn add(&mut self, more: &[MethodName<'a>])
        requires { length self.old + length more.now ≤ MAX_NAMES }
        ensures { self.new ≡ self.old ++ names_of more.now }
    {
        for name in more {
            self.names.push(*name);
        }
    }

    /// The methods, in order.
    pub fn as_slice(&self) -> &[MethodName<'a>]
        ensures { names_of result.now ≡ self.now }
    {
        self.names.as_slice()
    }
}

// The method that a word names.
fn named(word: &[u8]) -> Option<MethodName<'_>>
    ensures some { IfSome result (λ method. IsNamed word.now (name_of method)) }
    ensures only { (name : Name) → IsNamed word.now name → IsSomeAnd result (λ method. name_of method ≡ name) }
{
    let (service, method) = split_at(word, SLASH)?;
    if !is_name(service) || !is_name(method) {
        return None;
    }
    Some(MethodName { service, method })
}

fn is_name(text: &[u8]) -> bool
    ensures { result ≡ is_name text.now }
{
    !text.is_empty() && has_name_octets(text)
}

fn has_name_octets(text: &[u8]) -> bool
    ensures { result ≡ list_all is_name_octet text.now }
{
    text.iter().all(|octet| is_name_octet(*octet))
}

fn is_name_octet(octet: u8) -> bool
    ensures { result ≡ is_name_octet octet }
{
    octet.is_ascii_alphanumeric() || octet == b'_' || octet == b'.'
}

//! The names of a store's files.

use crate::StoreKey;

/// What a file of a store is, by its name.
#[derive(Clone, Copy)]
pub(crate) enum Name {
    /// A whole resource.
    Full(u32),
    /// What is left of a resource.
    Left(u32),
    /// An upload, and the resource that it is of.
    Work(StoreKey, u32),
}

impl Name {
    /// What a file name says, each number in the one way that it is written. Other files are none of a store's.
    pub(crate) fn read(text: &str) -> Option<Name> {
        let (kind, numbers) = text.split_once('-')?;
        match kind {
            "full" => Some(Name::Full(number(numbers)?)),
            "left" => Some(Name::Left(number(numbers)?)),
            "work" => work(numbers),
            _ => None,
        }
    }
}

fn work(numbers: &str) -> Option<Name> {
    let (call, rest) = numbers.split_once('-')?;
    let (session, resource) = rest.split_once('-')?;
    let key = StoreKey {
        call: number(call)?,
        session: number(session)?,
    };
    Some(Name::Work(key, number(resource)?))
}

fn number(digits: &str) -> Option<u32> {
    if digits.starts_with('+') || (digits.len() > 1 && digits.starts_with('0')) {
        return None;
    }
    digits.parse::<u32>().ok()
}

//! A number with a name, behind further words.
ghost use Rattle.std.specs.Prelude.{◌≡◌, ℕ, ◌++◌, List, Option, Some, IfNone, IfSome, IsSomeAnd, map, string_bytes};
ghost use Rattle.std.specs.Fmt.{decimal};
ghost use Rattle.pw_run.specs.Trailing.{EndsOtherwise, EndsWithName, IsUpTo, named_number};

use text_fields::small_number;

/// The words before this name and a number from 1 to the most, and the number; or all words, where the name stands elsewhere.
pub(crate) fn number_behind<'a>(
    words: &'a [String],
    name: &str,
    most: u32,
) -> Option<(&'a [String], Option<u32>)>
    ensures some { IfSome result (λ found. (map string_bytes words.now ≡ map string_bytes found.0.now ++ named_number name.now found.1) × IsUpTo most found.1) }
    ensures only { (front : List (List ℕ)) (number : Option ℕ) → map string_bytes words.now ≡ front ++ named_number name.now number → IsUpTo most number → EndsOtherwise name.now front →
        IsSomeAnd result (λ found. (map string_bytes found.0.now ≡ front) × (found.1 ≡ number)) }
{
    match behind(words, name) {
        None => Some((words, None)),
        Some((front, number)) => match number_up_to(number, most) {
            None => None,
            Some(number) => Some((front, Some(number))),
        },
    }
}

// The number from 1 to the most that a word tells.
fn number_up_to(word: &str, most: u32) -> Option<u32>
    ensures some { IfSome result (λ number. (word.now ≡ decimal number) × IsUpTo most (Some number)) }
    ensures only { (number : ℕ) → word.now ≡ decimal number → IsUpTo most (Some number) → result ≡ Some number }
{
    let number = small_number(word.as_bytes())?;
    if !(1..=most).contains(&number) {
        return None;
    }
    Some(number)
}

// The words before this name and one word more, and that word.
fn behind<'a>(words: &'a [String], name: &str) -> Option<(&'a [String], &'a str)>
    ensures some { IfSome result (λ found. EndsWithName name.now (map string_bytes found.0.now) found.1.now (map string_bytes words.now)) }
    ensures none { IfNone result (EndsOtherwise name.now (map string_bytes words.now)) }
{
    if words.len() < 2 {
        return None;
    }
    let at = words.len() - 2;
    if words[at].as_str() != name {
        return None;
    }
    Some((&words[..at], words[at + 1].as_str()))
}

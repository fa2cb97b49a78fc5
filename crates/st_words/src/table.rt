//! The forms of the words that are commands.
ghost use Rattle.std.specs.Prelude.{◌≡◌, map, string_bytes, option_map};
ghost use Rattle.st_words.specs.Table.{after_prefix, first_and_rest, option_in, only_option, both_in, values_in, named_alone, named};
ghost use Rattle.st_words.specs.inside.Forms.{is_form, are_numbers};

use crate::number::is_number;
use crate::request::Request;

// What follows a prefix of a word.
fn after_prefix<'a>(prefix: &[u8], word: &'a [u8]) -> Option<&'a [u8]>
    ensures { option_map (λ v. v.now) result ≡ after_prefix prefix.now word.now }
{
    word.strip_prefix(prefix)
}

// The first of some words, and those after it.
fn first_and_rest(words: &[String]) -> Option<(&[u8], &[String])>
    ensures { option_map (λ p. (p.0.now, map string_bytes p.1.now)) result
        ≡ first_and_rest (map string_bytes words.now) }
{
    match words {
        [] => None,
        [word, rest @ ..] => Some((word.as_bytes(), rest)),
    }
}

// The value of the option with which some words begin, and the words after it.
fn option_in<'a>(name: &[u8], tied: &[u8], words: &'a [String]) -> Option<(&'a [u8], &'a [String])>
    ensures { option_map (λ p. (p.0.now, map string_bytes p.1.now)) result
        ≡ option_in name.now tied.now (map string_bytes words.now) }
{
    let (word, rest) = first_and_rest(words)?;
    if word == name {
        return first_and_rest(rest);
    }
    let value = after_prefix(tied, word)?;
    Some((value, rest))
}

// The value of the option that some words are.
fn only_option<'a>(name: &[u8], tied: &[u8], words: &'a [String]) -> Option<&'a [u8]>
    ensures { option_map (λ v. v.now) result
        ≡ only_option name.now tied.now (map string_bytes words.now) }
{
    let (value, rest) = option_in(name, tied, words)?;
    if rest.is_empty() { Some(value) } else { None }
}

// The values of the two options that some words are, in this order.
fn both_in<'a>(
    first: &[u8],
    tied: &[u8],
    second: &[u8],
    tied_second: &[u8],
    words: &'a [String],
) -> Option<(&'a [u8], &'a [u8])>
    ensures { option_map (λ p. (p.0.now, p.1.now)) result
        ≡ both_in first.now tied.now second.now tied_second.now (map string_bytes words.now) }
{
    let (value, rest) = option_in(first, tied, words)?;
    let other = only_option(second, tied_second, rest)?;
    Some((value, other))
}

// The seed and the count of steps, in either order.
fn values_in(words: &[String]) -> Option<(&[u8], &[u8])>
    ensures { option_map (λ p. (p.0.now, p.1.now)) result ≡ values_in (map string_bytes words.now) }
{
    if let Some(values) = both_in(b"--seed", b"--seed=", b"--steps", b"--steps=", words) {
        return Some(values);
    }
    let (steps, seed) = both_in(b"--steps", b"--steps=", b"--seed", b"--seed=", words)?;
    Some((seed, steps))
}

// Whether some words are two options with a number each.
fn are_numbers(words: &[String]) -> bool
    ensures { result ≡ are_numbers (values_in (map string_bytes words.now)) }
{
    match values_in(words) {
        Some((seed, steps)) => is_number(seed) && is_number(steps),
        None => false,
    }
}

/// The command of a name that stands alone.
pub fn named(word: &str) -> Option<Request>
    ensures { result ≡ named word.now }
{
    match word {
        "trace" => Some(Request::Trace),
        "replay" => Some(Request::Replay),
        "algebra" => Some(Request::Algebra),
        "compat" => Some(Request::Compat),
        _ => None,
    }
}

/// Whether the words have the form of a command.
pub fn is_form(words: &[String]) -> bool
    ensures { result ≡ is_form (map string_bytes words.now) }
{
    match words {
        [] => false,
        [word, rest @ ..] => {
            if word.as_str() == "work" {
                are_numbers(rest)
            } else {
                rest.is_empty() && named(word.as_str()).is_some()
            }
        }
    }
}

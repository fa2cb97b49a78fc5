//! Numbers among the words.
ghost use Rattle.std.specs.Prelude.{◌≡◌};
ghost use Rattle.std.specs.List.{list_all};
ghost use Rattle.std.specs.Char.{is_ascii_digit};
ghost use Rattle.st_words.specs.Table.{is_number, max_seed, number_in};

// Whether each byte is a decimal digit.
fn is_digits(bytes: &[u8]) -> bool
    ensures { result ≡ list_all is_ascii_digit bytes.now }
{
    bytes.iter().all(|b| b.is_ascii_digit())
}

/// Whether a word is 1 to 20 digits.
pub fn is_number(bytes: &[u8]) -> bool
    ensures { result ≡ is_number bytes.now }
{
    !bytes.is_empty() && bytes.len() <= 20 && is_digits(bytes)
}

/// The number below 2^64 that a word of 1 to 20 digits writes.
pub fn number(text: &str) -> Option<u64>
    ensures { result ≡ number_in max_seed text.now }
{
    if is_number(text.as_bytes()) {
        text.parse().ok()
    } else {
        None
    }
}

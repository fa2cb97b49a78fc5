//! Version 4 UUIDs and their free numbers.
ghost use Rattle.std.specs.Prelude.{◌≡◌, ◌<◌, ◌^◌};
ghost use Rattle.st_clusters.specs.Free.{is_v4, free_number, uuid_of, ahead, free_after, spans_meet};

/// How many free numbers the span of a session has.
pub(crate) const SPAN: u128 = 1 << 32;

const ROUND: u128 = 1 << 122;

/// Whether the version is 4 and the variant that of RFC 9562.
#[tactic(auto, unfolding(crate::specs::Free::is_v4))]
pub fn is_v4(uuid: u128) -> bool
    ensures { result ≡ is_v4 uuid }
{
    (uuid >> 76) % 16 == 4 && (uuid >> 62) % 4 == 2
}

/// The free number of a UUID: its 122 bits beside the version and the variant.
#[tactic(auto, unfolding(crate::specs::Free::free_number))]
pub(crate) fn free_number(uuid: u128) -> u128
    ensures value { result ≡ free_number uuid }
    ensures bound { result < 2 ^ 122 }
{
    (uuid >> 80) * (1 << 74) + (uuid >> 64) % (1 << 12) * (1 << 62) + uuid % (1 << 62)
}

/// The version 4 UUID of a free number.
#[tactic(auto, unfolding(crate::specs::Free::uuid_of))]
pub fn uuid_of(free: u128) -> u128
    requires { free < 2 ^ 122 }
    ensures { result ≡ uuid_of free }
{
    (free >> 74) * (1 << 80)
        + 4 * (1 << 76)
        + (free >> 62) % (1 << 12) * (1 << 64)
        + 2 * (1 << 62)
        + free % (1 << 62)
}

/// How far one free number comes after another.
#[tactic(auto, unfolding(crate::specs::Free::ahead))]
pub(crate) fn ahead(a: u128, b: u128) -> u128
    requires from { a < 2 ^ 122 }
    requires to { b < 2 ^ 122 }
    ensures { result ≡ ahead a b }
{
    (b + ROUND - a) % ROUND
}

/// Whether the spans of two sessions meet, which begin at the free numbers of their UUIDs.
pub fn spans_clash(one: u128, other: u128) -> bool
    ensures { result ≡ spans_meet (free_number one) (free_number other) }
{
    let one = free_number(one);
    let other = free_number(other);
    ahead(one, other) < SPAN || ahead(other, one) < SPAN
}

/// The free number that comes `n` after another.
#[tactic(auto, unfolding(crate::specs::Free::free_after))]
pub(crate) fn free_after(free: u128, n: u32) -> u128
    requires { free < 2 ^ 122 }
    ensures value { result ≡ free_after free n }
    ensures bound { result < 2 ^ 122 }
{
    (free + u128::from(n)) % ROUND
}

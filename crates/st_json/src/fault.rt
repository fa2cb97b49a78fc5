//! Why a line or a value is refused.

/// The bytes are no UTF-8, or no JSON text.
#[derive(Clone, Copy, Debug, PartialEq, Eq)]
pub struct NotJson;

/// The value is not of the form that was asked for.
#[derive(Clone, Copy, Debug, PartialEq, Eq)]
pub struct Shape;

/// The first test that a line fails, in the order of the tests.
#[derive(Clone, Copy, Debug, PartialEq, Eq)]
pub enum BadCause {
    /// The bytes have no reading.
    Json,
    /// A first line that is no header.
    Header,
    /// The value is not of the form stated for it.
    Shape,
    /// A change or a step that is not in normal form.
    NotNormal,
}

//! The items of arrays that have so many.
ghost use Rattle.std.specs.Prelude.{◌≡◌, option_map, option_and_then};
ghost use Rattle.serde_json.specs.Find.{as_array};
ghost use Rattle.serde_json.specs.View.{view, items_view};
ghost use Rattle.st_schema.specs.Reading.{two_in, two_items};
ghost use Rattle.st_mark_reader.specs.Reading.{three_in, four_in, six_in};

use serde_json::Value;

/// Four values.
pub type Four<'a> = (&'a Value, &'a Value, &'a Value, &'a Value);

/// Six values.
pub type Six<'a> = (
    &'a Value,
    &'a Value,
    &'a Value,
    &'a Value,
    &'a Value,
    &'a Value,
);

/// The two of two values, where there are no others.
pub fn two_in(values: &[Value]) -> Option<(&Value, &Value)>
    ensures { option_map (λ p. (view p.0.now, view p.1.now)) result ≡ two_in (items_view values.now) }
{
    let mut values = values.iter();
    let first = values.next()?;
    let second = values.next()?;
    if values.next().is_none() {
        Some((first, second))
    } else {
        None
    }
}

/// The three of three values, where there are no others.
pub fn three_in(values: &[Value]) -> Option<(&Value, &Value, &Value)>
    ensures { option_map (λ p. (view p.0.now, view p.1.now, view p.2.now)) result ≡ three_in (items_view values.now) }
{
    let mut values = values.iter();
    let first = values.next()?;
    let second = values.next()?;
    let third = values.next()?;
    if values.next().is_none() {
        Some((first, second, third))
    } else {
        None
    }
}

// The six of six values, where there are no others.
fn six_in(values: &[Value]) -> Option<Six<'_>>
    ensures { option_map (λ p. (view p.0.now, view p.1.now, view p.2.now, view p.3.now, view p.4.now, view p.5.now)) result
        ≡ six_in (items_view values.now) }
{
    if values.len() == 6 {
        Some((
            &values[0], &values[1], &values[2], &values[3], &values[4], &values[5],
        ))
    } else {
        None
    }
}

/// The two items of an array that has no others.
pub fn two_items(value: &Value) -> Option<(&Value, &Value)>
    ensures { option_map (λ p. (view p.0.now, view p.1.now)) result ≡ two_items (view value.now) }
{
    two_in(value.as_array()?.as_slice())
}

/// The six items of an array that has no others.
pub fn six_items(value: &Value) -> Option<Six<'_>>
    ensures { option_map (λ p. (view p.0.now, view p.1.now, view p.2.now, view p.3.now, view p.4.now, view p.5.now)) result
        ≡ option_and_then six_in (as_array (view value.now)) }
{
    six_in(value.as_array()?.as_slice())
}

// The four of four values, where there are no others.
fn four_in(values: &[Value]) -> Option<Four<'_>>
    ensures { option_map (λ p. (view p.0.now, view p.1.now, view p.2.now, view p.3.now)) result ≡ four_in (items_view values.now) }
{
    if values.len() == 4 {
        Some((&values[0], &values[1], &values[2], &values[3]))
    } else {
        None
    }
}

/// The four items of an array that has no others.
pub fn four_items(value: &Value) -> Option<Four<'_>>
    ensures { option_map (λ p. (view p.0.now, view p.1.now, view p.2.now, view p.3.now)) result
        ≡ option_and_then four_in (as_array (view value.now)) }
{
    four_in(value.as_array()?.as_slice())
}

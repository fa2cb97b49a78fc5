//! The types that a document of a schema may hold.
ghost use Rattle.std.specs.Prelude.{MatchOption};
ghost use Rattle.st_compat.specs.Relation.{types_below, types_of_fields};
ghost use Rattle.st_compat.specs.inside.Marks.{IsMarkedToo, IsMarking, AllFollowed, IsNext, below_number};

use st_ids::{List, Text};
use st_schema::{FieldDef, Form, Schema};

/// Types of a schema by their numbers, of which there are at most 256.
pub(crate) type Marks = [bool; 256];

// Marks each type that the list names.
fn mark_list(schema: &Schema, types: &List<Text>, marks: &mut Marks)
    ensures { IsMarkedToo schema.now types.now marks.old marks.new }
{
    schema.is_kept();
    let mut i = 0;
    'names: while let Some(name) = schema.name_at(i) {
        if types.as_slice().contains(name) {
            marks[i] = true;
        }
        i += 1;
    }
}

// Marks each type that a field may hold.
fn mark_fields(schema: &Schema, fields: &List<FieldDef>, marks: &mut Marks)
    ensures { IsMarkedToo schema.now (types_of_fields fields.now) marks.old marks.new }
{
    let mut rest = fields.as_slice();
    while let [field, after @ ..] = rest {
        mark_list(schema, &field.types, marks);
        rest = after;
    }
}

// Marks each type that a node of the form may hold.
fn mark_below(schema: &Schema, form: &Form, marks: &mut Marks)
    ensures { IsMarkedToo schema.now (types_below form.now) marks.old marks.new }
{
    match form {
        Form::Array(types) => mark_list(schema, types, marks),
        Form::Map(types) => mark_list(schema, types, marks),
        Form::Object(fields) => mark_fields(schema, fields, marks),
    }
}

// A mark that is not followed yet.
fn next(marks: &Marks, followed: &Marks) -> Option<usize>
    ensures { MatchOption result (AllFollowed marks.now followed.now) (IsNext marks.now followed.now) }
{
    for i in 0..256 {
        if marks[i] && !followed[i] {
            return Some(i);
        }
    }
    None
}

// Marks each type that a node of the type of that number may hold.
fn follow(schema: &Schema, i: usize, marks: &mut Marks)
    ensures { IsMarkedToo schema.now (below_number schema.now i) marks.old marks.new }
{
    if let Some(name) = schema.name_at(i) {
        if let Some(form) = schema.form(name) {
            mark_below(schema, form, marks);
        }
    }
}

/// Marks each type that is reachable: what the root may be, and what marked types may hold, until
/// each mark is followed.
pub(crate) fn mark_reachable(schema: &Schema) -> Marks
    ensures { IsMarking schema.now result }
{
    let mut marks = [false; 256];
    mark_list(schema, schema.root(), &mut marks);
    let mut followed = [false; 256];
    'marks: while let Some(i) = next(&marks, &followed) {
        followed[i] = true;
        follow(schema, i, &mut marks);
    }
    marks
}

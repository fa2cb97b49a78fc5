//! Laws of the texts of changes: each is the contract of a function that does nothing.
#![tactic(auto)]

ghost use Rattle.std.specs.Prelude.{◌≡◌};
ghost use Rattle.st_change_codec.specs.Changes.{change_data as plain_change_data};
ghost use Rattle.st_marks.specs.declared.changes.Change.{Change};
ghost use Rattle.st_mark_reader.specs.Naming.{plain_form, plain_naming};
ghost use Rattle.st_mark_reader.specs.OpSpace.{op_form, op_naming};
ghost use Rattle.st_change_writer.specs.Told.{change_data, step_data};
ghost use Rattle.st_change_reader.specs.Reading.{change_of};
ghost use Rattle.st_change_reader.specs.StepReading.{step_of};
ghost use Rattle.st_change_laws.specs.Both.{Reads, Writes};
ghost use Rattle.st_change_laws.specs.Within.{AtomHasNumber, ChangeIsWithin, HasNumber, IsShortAtom, IsShortRev, StepIsWithin};

use st_clusters::At;
use st_idcodec::names_are_read_back;

/// With plain names, what is told of a change that can be told is read as that change; and what is
/// read as a change can be told, and is told by no other value than the one that it was read of, if
/// each number told as negative in that value is so.
pub fn plain_changes_are_read_back()
    ensures written { Writes (change_of plain_form) (change_data plain_naming) (ChangeIsWithin IsShortRev IsShortAtom) }
    ensures read { Reads (change_of plain_form) (change_data plain_naming) (ChangeIsWithin IsShortRev IsShortAtom) }
{}

/// What is told of a change over plain names is what is told of it with plain names.
pub fn plain_names_are_told()
    ensures { (C : Change) → plain_change_data C ≡ change_data plain_naming C }
{}

/// The same of steps.
pub fn plain_steps_are_read_back()
    ensures written { Writes (step_of plain_form) (step_data plain_naming) (StepIsWithin IsShortRev IsShortAtom) }
    ensures read { Reads (step_of plain_form) (step_data plain_naming) (StepIsWithin IsShortRev IsShortAtom) }
{}

/// What is told in op space of a change, each of whose names has a number as the author of a
/// message saw the table of ids, is read there as that change.
pub fn op_changes_are_read_back(at: &At)
    ensures { Writes (change_of (op_form at.now)) (change_data (op_naming at.now)) (ChangeIsWithin (HasNumber at.now) (AtomHasNumber at.now)) }
{
    names_are_read_back();
    at.ids.names_are_distinct();
}

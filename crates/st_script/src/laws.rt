//! Laws about lines: each is the contract of a function that does nothing.
ghost use Rattle.std.specs.Prelude.{◌≡◌, ℕ, List, true, Some, Ok};
ghost use Rattle.st_schema.specs.Schema.{is_sound};
ghost use Rattle.st_script.specs.Header.{HeaderView, header_line, may_open};
ghost use Rattle.st_script.specs.Line.{step_of_line};
ghost use Rattle.st_script.specs.Steps.{StepView, IsWithinLimits, step_of};
ghost use Rattle.st_script.specs.StepText.{FitsLine, step_data, trees_have_shape};

/// The trees of a step that a line is are within the limits of trees, and its paths are short.
pub fn read_steps_are_of_form()
    ensures { (bytes : List ℕ) (s : StepView) → step_of_line bytes ≡ Ok s → IsWithinLimits s }
{}

/// A step that a line is has each member as a line can hold it, and each of its trees is read of
/// the tree's own JSON form.
pub fn read_steps_fit_lines()
    ensures { (bytes : List ℕ) (s : StepView) → step_of_line bytes ≡ Ok s → FitsLine s }
{}

/// The trees of a step that a line is have the shape of trees that values show, of which `step_line`
/// tells the line.
pub fn read_steps_have_shape()
    ensures { (bytes : List ℕ) (s : StepView) → step_of_line bytes ≡ Ok s → trees_have_shape s ≡ true }
{}

/// The value that is written for a step is read as that step, where each member is as a line can
/// hold it.
pub fn step_lines_are_read()
    ensures { (s : StepView) → FitsLine s → step_of (step_data s) ≡ Some s }
{}

/// The value that is written for a step that a line is, is read as that step again.
pub fn read_steps_are_read_again()
    ensures { (bytes : List ℕ) (s : StepView) → step_of_line bytes ≡ Ok s → step_of (step_data s) ≡ Some s }
{}

/// The schema of a header that a line is keeps the rules of schemas, and allows its tree as its root.
pub fn read_headers_may_open()
    ensures { (word bytes : List ℕ) (h : HeaderView) → header_line word bytes ≡ Ok h → (is_sound h.schema ≡ true) × (may_open h.schema h.tree ≡ true) }
{}

//! The lines of a trace: headers and steps that are read, and answers that are written.
#![tactic(auto)]

mod answer;
mod header;
mod laws;
mod line;
mod member;
mod read;
mod refusal;
mod step;
mod write;

pub use answer::{Answer, answer_line, void_value};
pub use header::read_header;
pub use laws::{
    read_headers_may_open, read_steps_are_of_form, read_steps_are_read_again, read_steps_fit_lines,
    read_steps_have_shape, step_lines_are_read,
};
pub use line::{Line, read_step_line};
pub use refusal::Refusal;
pub use step::{Act, EditAct, TraceStep};
pub use write::step_line;

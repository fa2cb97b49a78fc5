//! Steps, written behind a text.
ghost use Rattle.std.specs.Prelude.{◌≡◌, ◌++◌, OnOk};
ghost use Rattle.serde_json.specs.Written.{compact_text};
ghost use Rattle.st_change_writer.specs.Told.{reg_step_data, step_data};
ghost use Rattle.st_change_writer.specs.Texts.{step_head_text, step_tail_text};

use crate::lists::{PushItem, push_list, push_quoted};
use crate::marks::Rows;
use crate::names::PushNames;
use crate::nodes::{NewNodes, Nowhere, push_occupant};
use crate::schema::push_schema_part;
use st_ids::Text;
use st_marks::{RegStep, Step};
use std::alloc::{AllocError, Global};

#[tactic(auto, using(crate::proofs::Steps::reg_step_is))]
fn push_reg_step<N: PushNames>(
    alloc: Global,
    out: &mut Text,
    register: &RegStep,
    names: &N,
) -> Result<(), AllocError>
    ensures { OnOk result (out.new ≡ out.old ++ compact_text (reg_step_data (N.naming names.now) register.now)) }
{
    out.push_str("[")?;
    names.push_atom(out, register.field.node.0)?;
    out.push_str(",")?;
    push_quoted(alloc, out, register.field.key.0.as_str())?;
    out.push_str(",")?;
    push_occupant(out, register.before, names)?;
    out.push_str(",")?;
    push_occupant(out, register.after, names)?;
    out.push_str("]")
}

// How the registers of a step are written.
#[derive(Clone, Copy)]
struct RegSteps<'a, N> {
    names: &'a N,
    alloc: Global,
}

impl<N: PushNames> PushItem for RegSteps<'_, N> {
    type Item = RegStep;

    ghost told = { λ s. reg_step_data (N.naming s.names.now) };

    fn push(&self, out: &mut Text, item: &RegStep) -> Result<(), AllocError> {
        push_reg_step(self.alloc, out, item, self.names)
    }
}

// Writes the first two members.
fn push_head<N: PushNames>(
    alloc: Global,
    out: &mut Text,
    step: &Step,
    names: &N,
) -> Result<(), AllocError>
    ensures { OnOk result (out.new ≡ out.old ++ step_head_text (N.naming names.now) step.now) }
{
    out.push_str("{\"loose\":")?;
    push_list(out, step.loose.as_slice(), &Nowhere(names))?;
    out.push_str(",\"new\":")?;
    push_list(out, step.new.as_slice(), &NewNodes { names, alloc })
}

// Writes the next two, and what comes before the last.
fn push_tail<N: PushNames>(
    alloc: Global,
    out: &mut Text,
    step: &Step,
    names: &N,
) -> Result<(), AllocError>
    ensures { OnOk result (out.new ≡ out.old ++ step_tail_text (N.naming names.now) step.now) }
{
    out.push_str(",\"regs\":")?;
    push_list(out, step.regs.as_slice(), &RegSteps { names, alloc })?;
    out.push_str(",\"rows\":")?;
    push_list(out, step.rows.as_slice(), &Rows(names))?;
    out.push_str(",\"schema\":")
}

/// Writes a step behind a text, as the compact form of its JSON value.
#[tactic(auto, using(crate::proofs::Steps::step_is))]
pub fn push_step<N: PushNames>(
    alloc: Global,
    out: &mut Text,
    step: &Step,
    names: &N,
) -> Result<(), AllocError>
    ensures { OnOk result (out.new ≡ out.old ++ compact_text (step_data (N.naming names.now) step.now)) }
{
    push_head(alloc, out, step, names)?;
    push_tail(alloc, out, step, names)?;
    push_schema_part(alloc, out, &step.schema, names)?;
    out.push_str("}")
}

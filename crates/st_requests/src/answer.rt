//! The lines of answers.
ghost use Rattle.std.specs.Prelude.{◌≡◌, ◌++◌, codes, IfOk, OnOk};
ghost use Rattle.serde_json.specs.Data.{string};
ghost use Rattle.serde_json.specs.Written.{compact_text};
ghost use Rattle.st_mark_reader.specs.Naming.{plain_naming};
ghost use Rattle.st_script.specs.AnswerText.{void_data};
ghost use Rattle.st_change_writer.specs.Told.{step_data};
ghost use Rattle.st_requests.specs.Answers.{apart_answer, change_answer, line_of, step_answer, verdict_answer};

use serde_json::Value;
use st_change_writer::{Plain, PushNames, push_change, push_step};
use st_ids::{FieldId, NodeId, Rev, Text};
use st_marks::{Change, Step, Verdict};
use std::alloc::{AllocError, Global};

// Writes a text with its quotes.
fn push_quoted(alloc: Global, out: &mut Text, text: &str) -> Result<(), AllocError>
    ensures { OnOk result (out.new ≡ out.old ++ compact_text (string text.now)) }
{
    let value = Value::String(String::from_str(alloc, text)?);
    let quoted = Text::from_string(value.to_string(alloc)?);
    out.push_str(quoted.as_str())
}

#[tactic(auto, using(crate::proofs::Lines::change_is))]
fn push_change_answer(
    alloc: Global,
    out: &mut Text,
    word: &str,
    change: &Change,
) -> Result<(), AllocError>
    ensures { OnOk result (out.new ≡ out.old ++ line_of (change_answer word.now change.now)) }
{
    out.push_str("{\"change\":")?;
    push_change(alloc, out, change, &Plain)?;
    out.push_str(",\"ok\":")?;
    push_quoted(alloc, out, word)?;
    out.push_str("}\n")
}

/// The line that answers with a change, with its line feed. The word is the request's.
pub fn change_line(alloc: Global, word: &str, change: &Change) -> Result<Text, AllocError>
    ensures { IfOk result (λ t. t ≡ line_of (change_answer word.now change.now)) }
{
    let mut line = Text::new(alloc);
    push_change_answer(alloc, &mut line, word, change)?;
    Ok(line)
}

// Writes the word and the step of an answer, as far as what follows the step.
#[tactic(auto, using(crate::proofs::Lines::head_is))]
fn push_step_head(alloc: Global, out: &mut Text, word: &str, step: &Step) -> Result<(), AllocError>
    ensures { OnOk result (out.new ≡ out.old ++ (codes "{\"ok\":" ++ (compact_text (string word.now) ++ (codes ",\"step\":" ++ compact_text (step_data plain_naming step.now))))) }
{
    out.push_str("{\"ok\":")?;
    push_quoted(alloc, out, word)?;
    out.push_str(",\"step\":")?;
    push_step(alloc, out, step, &Plain)
}

#[tactic(auto, using(crate::proofs::Lines::step_is))]
fn push_step_answer(
    alloc: Global,
    out: &mut Text,
    word: &str,
    step: &Step,
) -> Result<(), AllocError>
    ensures { OnOk result (out.new ≡ out.old ++ line_of (step_answer word.now step.now)) }
{
    push_step_head(alloc, out, word, step)?;
    out.push_str("}\n")
}

/// The line that answers with a step, with its line feed. The word is the request's.
pub fn step_line(alloc: Global, word: &str, step: &Step) -> Result<Text, AllocError>
    ensures { IfOk result (λ t. t ≡ line_of (step_answer word.now step.now)) }
{
    let mut line = Text::new(alloc);
    push_step_answer(alloc, &mut line, word, step)?;
    Ok(line)
}

// Writes why a commit is void, with a word and a name.
fn push_node_reason(out: &mut Text, front: &str, node: NodeId) -> Result<(), AllocError>
    ensures { OnOk result (out.new ≡ out.old ++ (front.now ++ (compact_text (plain_naming.atom node.0) ++ codes "}"))) }
{
    out.push_str(front)?;
    Plain.push_atom(out, node.0)?;
    out.push_str("}")
}

fn push_rev_reason(out: &mut Text, front: &str, rev: Rev) -> Result<(), AllocError>
    ensures { OnOk result (out.new ≡ out.old ++ (front.now ++ (compact_text (plain_naming.rev rev) ++ codes "}"))) }
{
    out.push_str(front)?;
    Plain.push_rev(out, rev)?;
    out.push_str("}")
}

// Writes why a commit is void, or null.
#[tactic(auto, using(crate::proofs::Lines::need_is, crate::proofs::Lines::cycle_is, crate::proofs::Lines::schema_is))]
fn push_verdict(out: &mut Text, verdict: Verdict) -> Result<(), AllocError>
    ensures { OnOk result (out.new ≡ out.old ++ compact_text (void_data verdict)) }
{
    match verdict {
        Verdict::Sound => out.push_str("null"),
        Verdict::Schema(rev) => push_rev_reason(out, "{\"schema\":", rev),
        Verdict::Need(node) => push_node_reason(out, "{\"need\":", node),
        Verdict::Cycle(node) => push_node_reason(out, "{\"cycle\":", node),
    }
}

#[tactic(auto, using(crate::proofs::Lines::effect_is))]
fn push_effect_answer(
    alloc: Global,
    out: &mut Text,
    word: &str,
    step: &Step,
    verdict: Verdict,
) -> Result<(), AllocError>
    ensures { OnOk result (out.new ≡ out.old ++ line_of (verdict_answer word.now step.now verdict)) }
{
    push_step_head(alloc, out, word, step)?;
    out.push_str(",\"verdict\":")?;
    push_verdict(out, verdict)?;
    out.push_str("}\n")
}

/// The line that answers with the step that a change makes, and with why the change is void, or
/// null, with its line feed. The word is the request's.
pub fn effect_line(
    alloc: Global,
    word: &str,
    step: &Step,
    verdict: Verdict,
) -> Result<Text, AllocError>
    ensures { IfOk result (λ t. t ≡ line_of (verdict_answer word.now step.now verdict)) }
{
    let mut line = Text::new(alloc);
    push_effect_answer(alloc, &mut line, word, step, verdict)?;
    Ok(line)
}

#[tactic(auto, using(crate::proofs::Lines::apart_is))]
fn push_apart(alloc: Global, out: &mut Text, field: &FieldId) -> Result<(), AllocError>
    ensures { OnOk result (out.new ≡ out.old ++ line_of (apart_answer field.now)) }
{
    out.push_str("{\"field\":[")?;
    Plain.push_atom(out, field.node.0)?;
    out.push_str(",")?;
    push_quoted(alloc, out, field.key.0.as_str())?;
    out.push_str("],\"no\":\"Apart\"}\n")
}

/// The line that says at which field two arguments don't agree, with its line feed.
pub fn apart_line(alloc: Global, field: &FieldId) -> Result<Text, AllocError>
    ensures { IfOk result (λ t. t ≡ line_of (apart_answer field.now)) }
{
    let mut line = Text::new(alloc);
    push_apart(alloc, &mut line, field)?;
    Ok(line)
}

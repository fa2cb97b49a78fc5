//! The lines of relations.
ghost use Rattle.std.specs.Prelude.{◌≡◌, ◌++◌, ◌∷◌, [], IfOk};
ghost use Rattle.serde_json.specs.View.{view};
ghost use Rattle.serde_json.specs.Written.{compact_text};
ghost use Rattle.st_compat.specs.RelationText.{why_word, cause_data, causes_data, view_data, refusal_data, refuse_data, relation_line};

use crate::relation::{Cause, Relation, Why};
use serde_json::{Value, json};
use st_ids::{List, Text};
use st_json::write_line;
use std::alloc::{AllocError, Global};

fn why_word(why: Why) -> &'static str
    ensures { result.now ≡ why_word why }
{
    match why {
        Why::Absent => "absent",
        Why::Shape => "shape",
        Why::Allow => "allow",
        Why::Fields => "fields",
        Why::Root => "root",
    }
}

fn cause_value(alloc: Global, cause: &Cause) -> Result<Value, AllocError>
    ensures { IfOk result (λ v. view v ≡ cause_data cause.now) }
{
    let ty = cause.ty.as_str();
    let word = why_word(cause.why);
    json!(in alloc; [ty, word])
}

fn causes_value(alloc: Global, causes: &List<Cause>) -> Result<Value, AllocError>
    ensures { IfOk result (λ v. view v ≡ causes_data causes.now) }
{
    let mut items = Vec::new(alloc);
    for cause in causes.as_slice() {
        items.push(cause_value(alloc, cause)?)?;
    }
    Ok(Value::Array(items))
}

// The answer by a word, without causes.
fn view_value(alloc: Global, word: &str) -> Result<Value, AllocError>
    ensures { IfOk result (λ v. view v ≡ view_data word.now) }
{
    json!(in alloc; {"ok": "compat", "view": word})
}

fn refuse_value(alloc: Global, causes: &List<Cause>) -> Result<Value, AllocError>
    ensures { IfOk result (λ v. view v ≡ refuse_data causes.now) }
{
    let causes = causes_value(alloc, causes)?;
    refusal_value(alloc, causes)
}

// The answer with the value of the causes.
fn refusal_value(alloc: Global, causes: Value) -> Result<Value, AllocError>
    ensures { IfOk result (λ v. view v ≡ refusal_data (view causes)) }
{
    json!(in alloc; {"causes": causes, "ok": "compat", "view": "Refuse"})
}

fn view_line(alloc: Global, word: &str) -> Result<Text, AllocError>
    ensures { IfOk result (λ t. t ≡ compact_text (view_data word.now) ++ 10 ∷ []) }
{
    let value = view_value(alloc, word)?;
    write_line(alloc, &value)
}

fn refuse_line(alloc: Global, causes: &List<Cause>) -> Result<Text, AllocError>
    ensures { IfOk result (λ t. t ≡ compact_text (refuse_data causes.now) ++ 10 ∷ []) }
{
    let value = refuse_value(alloc, causes)?;
    write_line(alloc, &value)
}

/// The line of a relation, with its line feed.
pub fn relation_line(alloc: Global, relation: &Relation) -> Result<Text, AllocError>
    ensures { IfOk result (λ t. t ≡ relation_line relation.now) }
{
    match relation {
        Relation::Equal => view_line(alloc, "Equal"),
        Relation::Upgrade => view_line(alloc, "Upgrade"),
        Relation::Viewable => view_line(alloc, "Viewable"),
        Relation::Refuse { causes } => refuse_line(alloc, causes),
    }
}

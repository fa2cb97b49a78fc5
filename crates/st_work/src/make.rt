//! The step of a client that does what was drawn.
ghost use Rattle.std.specs.Prelude.{◌≡◌, ◌∷◌, [], map, IfOk};
ghost use Rattle.std.specs.Fmt.{decimal};
ghost use Rattle.st_tree.specs.Node.{view};
ghost use Rattle.st_script.specs.Steps.{act_view, step_view, IsWithinLimits};
ghost use Rattle.st_work.specs.Generator.{act_planned, client_drawn, inserted, moved, removed, step_planned, text_item};

use crate::work::Plan;
use st_ids::{Key, Leaf, List, Path, Text};
use st_script::{Act, EditAct, TraceStep};
use st_tree::Tree;
use std::alloc::{AllocError, Global};

// The name of a client.
fn client_name(client: u32) -> &'static str
    ensures { result.now ≡ client_drawn client }
{
    match client {
        0 => "A",
        1 => "B",
        2 => "C",
        _ => "D",
    }
}

// The text of a number.
fn number_text(alloc: Global, number: u32) -> Result<Text, AllocError>
    ensures { IfOk result (λ t. t ≡ decimal number) }
{
    let text = format!(in alloc; "{number}")?;
    Ok(Text::from_string(text))
}

// The item of a step: its number as a text.
fn text_item(alloc: Global, number: u32) -> Result<Tree, AllocError>
    ensures { IfOk result (λ t. view t ≡ text_item number) }
{
    let ty = Text::from_str(alloc, "text")?;
    let words = number_text(alloc, number)?;
    Ok(Tree {
        ty,
        leaf: Some(Leaf::Words(words)),
        fields: List::new(alloc),
    })
}

// The items of a step.
fn items_of(alloc: Global, number: u32) -> Result<List<Tree>, AllocError>
    ensures { IfOk result (λ ts. map view ts ≡ text_item number ∷ []) }
{
    let item = text_item(alloc, number)?;
    let mut items = List::new(alloc);
    items.push(item)?;
    Ok(items)
}

fn insert_one(alloc: Global, number: u32, index: u32) -> Result<Act, AllocError>
    ensures { IfOk result (λ a. act_view a ≡ inserted number index) }
{
    let items = items_of(alloc, number)?;
    Ok(Act::Edit(EditAct::Insert {
        at: Path::new(alloc),
        key: Key(Text::new(alloc)),
        index,
        items,
    }))
}

fn remove_one(alloc: Global, index: u32) -> Act
    ensures { act_view result ≡ removed index }
{
    Act::Edit(EditAct::Remove {
        at: Path::new(alloc),
        key: Key(Text::new(alloc)),
        index,
        count: 1,
    })
}

fn move_one(alloc: Global, index: u32, to_index: u32) -> Act
    ensures { act_view result ≡ moved index to_index }
{
    Act::Edit(EditAct::Move {
        at: Path::new(alloc),
        key: Key(Text::new(alloc)),
        index,
        count: 1,
        to: Path::new(alloc),
        to_key: Key(Text::new(alloc)),
        to_index,
    })
}

// What the step of a number does.
fn act_of(alloc: Global, number: u32, plan: Plan) -> Result<Act, AllocError>
    ensures { IfOk result (λ a. act_view a ≡ act_planned number plan) }
{
    match plan {
        Plan::Insert { index } => insert_one(alloc, number, index),
        Plan::Remove { index } => Ok(remove_one(alloc, index)),
        Plan::Move { index, to_index } => Ok(move_one(alloc, index, to_index)),
        Plan::Sequence => Ok(Act::Sequence),
        Plan::Deliver => Ok(Act::Deliver),
    }
}

/// The step of a number, of the client that was drawn.
#[tactic(auto, using(crate::proofs::Within::planned_is_within))]
pub fn make_step(
    alloc: Global,
    number: u32,
    client: u32,
    plan: Plan,
) -> Result<TraceStep, AllocError>
    ensures step { IfOk result (λ s. step_view s ≡ step_planned number client plan) }
    ensures within { IfOk result (λ s. IsWithinLimits (step_view s)) }
{
    let client = Text::from_str(alloc, client_name(client))?;
    let act = act_of(alloc, number, plan)?;
    Ok(TraceStep {
        client,
        branch: 0,
        act,
    })
}

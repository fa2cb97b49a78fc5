//! Widening the schema of a client's main line.
ghost use Rattle.std.specs.Prelude.{◌≡◌, ◌+◌, ◌<◌, ◌≤◌, ◌^◌, length, None, IfOk, OnOk};
ghost use Rattle.st_marks.specs.Document.{IsSoundInForm};
ghost use Rattle.st_marks.specs.Intent.{Fits};
ghost use Rattle.st_doc.specs.Doc.{document_of};
ghost use Rattle.st_lists.specs.Clients.{KeepsIds, next_rev};
ghost use Rattle.std.specs.Option.{option_or};
ghost use Rattle.st_lists.specs.Limits.{pending_limit_passed};
ghost use Rattle.st_world.specs.Upgrade.{change_of_schema, refusal_to_upgrade, schemas_limit_passed, upgrade};
ghost use Rattle.st_edits.specs.InEffect.{last_in_effect};
ghost use Rattle.st_plain_schemas.specs.Upgrade.{HasKeptOf, HasUpgraded};

use crate::known::{KnownSchema, keep, know};
use st_heads::{Replica, commit_new, last_in_effect};
use st_ids::{Copied, Limit, LimitOf, List, Rev};
use st_lists::{Client, next_rev, pending_limit_passed};
use st_marks::Intent;
use st_schema::{Schema, wider};
use st_script::{Answer, Refusal};
use std::alloc::{AllocError, Global};
use std::collections::BTreeMap;

/// How many schemas are in effect in a document.
const MOST_SCHEMAS: usize = 64;

// A change of the schema to another, made under the entry of a revision.
fn change_of_schema(alloc: Global, rev: Rev, under: Rev, new: &Schema) -> Result<Intent, AllocError>
    ensures { IfOk result (λ i. i ≡ change_of_schema rev under new.now) }
{
    let text = new.text(alloc)?;
    Ok(Intent {
        rev,
        under,
        new: List::new(alloc),
        groups: List::new(alloc),
        clear: List::new(alloc),
        put: List::new(alloc),
        need: List::new(alloc),
        schema: Some(text),
    })
}

// The limit that one more schema in effect would pass, beside so many.
fn schemas_limit_passed(in_effect: usize) -> Option<Limit>
    requires { in_effect < 2 ^ 32 }
    ensures { result ≡ schemas_limit_passed in_effect }
{
    if in_effect >= MOST_SCHEMAS {
        let of = LimitOf::Schemas;
        let kept = in_effect as u32;
        return Some(Limit { of, kept });
    }
    None
}

// The limit that one more schema in effect, or one more pending commit, would pass.
fn limit_passed(client: &Client, in_effect: usize) -> Option<Limit>
    requires pending { length client.now.pending ≤ 256 }
    requires few { in_effect < 2 ^ 32 }
    ensures { result ≡ option_or (schemas_limit_passed in_effect) (pending_limit_passed client.now) }
{
    match schemas_limit_passed(in_effect) {
        Some(limit) => Some(limit),
        None => pending_limit_passed(client),
    }
}

// Why a client can't upgrade from a schema, where so many are in effect.
fn refusal_to_upgrade(
    client: &Client,
    old: &Schema,
    in_effect: usize,
    new: &Schema,
) -> Option<Refusal>
    requires pending { length client.now.pending ≤ 256 }
    requires few { in_effect < 2 ^ 32 }
    ensures { result ≡ refusal_to_upgrade client.now old.now in_effect new.now }
{
    if client.transaction.is_some() {
        return Some(Refusal::Unfinished);
    }
    match wider(old, new) {
        Err(narrowing) => Some(Refusal::NotWider { at: narrowing.at }),
        Ok(()) => limit_passed(client, in_effect).map(Refusal::Limit),
    }
}

// Makes the schema wider by a commit.
fn add_upgrade(
    alloc: Global,
    client: &mut Client,
    kept: &mut Replica,
    new: &Schema,
) -> Result<Answer, AllocError>
    requires few { client.old.ids + 1 < 2 ^ 32 }
    requires taken { KeepsIds client.old }
    requires names { kept.old.names ≤ 16384 }
    requires sound { IsSoundInForm (document_of kept.old.main.doc) }
    requires fits { Fits (document_of kept.old.main.doc) (change_of_schema (next_rev client.old) (last_in_effect (document_of kept.old.main.doc)) new.now) }
    ensures answer { IfOk result (λ a. upgrade client.old (change_of_schema (next_rev client.old) (last_in_effect (document_of kept.old.main.doc)) new.now) None ≡ (client.new, a)) }
    ensures kept { OnOk result (HasUpgraded None kept.old (change_of_schema (next_rev client.old) (last_in_effect (document_of kept.old.main.doc)) new.now) kept.new) }
{
    let rev = next_rev(client);
    let under = last_in_effect(&kept.main.doc);
    let intent = change_of_schema(alloc, rev, under, new)?;
    commit_new(alloc, client, kept, intent)?;
    Ok(Answer::Upgrade { rev })
}

/// Makes the schema of what a client's main line shows wider, or refuses to. `old` is the schema in effect there.
pub fn upgrade(
    alloc: Global,
    old: &Schema,
    client: &mut Client,
    kept: &mut Replica,
    new: &Schema,
) -> Result<Answer, AllocError>
    requires few { client.old.ids + 1 < 2 ^ 32 }
    requires taken { KeepsIds client.old }
    requires pending { length client.old.pending ≤ 256 }
    requires names { kept.old.names ≤ 16384 }
    requires schemas { length (document_of kept.old.main.doc).schemas < 2 ^ 32 }
    requires sound { IsSoundInForm (document_of kept.old.main.doc) }
    requires fits { Fits (document_of kept.old.main.doc) (change_of_schema (next_rev client.old) (last_in_effect (document_of kept.old.main.doc)) new.now) }
    ensures answer { IfOk result (λ a. upgrade client.old (change_of_schema (next_rev client.old) (last_in_effect (document_of kept.old.main.doc)) new.now)
        (refusal_to_upgrade client.old old.now (length (document_of kept.old.main.doc).schemas) new.now) ≡ (client.new, a)) }
    ensures kept { OnOk result (HasUpgraded (refusal_to_upgrade client.old old.now (length (document_of kept.old.main.doc).schemas) new.now)
        kept.old (change_of_schema (next_rev client.old) (last_in_effect (document_of kept.old.main.doc)) new.now) kept.new) }
{
    let in_effect = kept.main.doc.schemas().len();
    match refusal_to_upgrade(client, old, in_effect, new) {
        Some(refusal) => Ok(Answer::No(refusal)),
        None => {
            let answer = add_upgrade(alloc, client, kept, new)?;
            Ok(answer)
        }
    }
}

/// Keeps the schema that an upgrade brought in, where it is answered that it did.
pub fn keep_upgrade(
    alloc: Global,
    schemas: &mut BTreeMap<Rev, KnownSchema>,
    answer: &Answer,
    new: &Schema,
) -> Result<(), AllocError>
    ensures { OnOk result (HasKeptOf answer.now new.now schemas.old schemas.new) }
{
    let Answer::Upgrade { rev } = answer else {
        return Ok(());
    };
    let known = know(alloc, new.copy(alloc)?)?;
    keep(schemas, *rev, known)?;
    Ok(())
}

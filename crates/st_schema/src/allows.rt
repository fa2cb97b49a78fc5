//! Which trees a schema allows.
ghost use Rattle.std.specs.Prelude.{◌≡◌, ◌+◌, ◌<◌, ◌^◌, ◌&&◌, not, is_some, true, [], None, ℕ, List as Seq};
ghost use Rattle.std.specs.Option.{option_copied};
ghost use Rattle.st_tree.specs.declared.tree.Tree.{out-Tree};
ghost use Rattle.st_tree.specs.Node.{Node, view, trees_view};
ghost use Rattle.st_tree.specs.inside.Node.{field_view, fields_view};
ghost use Rattle.st_tree.specs.Size.{node_count, item_count};
ghost use Rattle.st_tree.specs.Form.{is_row_alone, is_single, keys_rise, has_form};
ghost use Rattle.st_schema.specs.Schema.{SchemaView, is_among, form_of, field_in};
ghost use Rattle.st_schema.specs.Conforms.{leaf_type, has_key, have_rules, required_there, fields_fit, has_none, is_as_typed, node_fits, types_under, verdicts, items_verdicts, conforms, allows_of, allows_all_of};
ghost use Rattle.st_schema.specs.Kind.{is_required};
ghost use Rattle.st_schema.specs.inside.Conforms.{walk_on, walk_over};

use crate::names::{FieldDef, Form, KindName, NotAllowed};
use crate::rules::is_key;
use crate::schema::{Schema, declared_field};
use st_ids::{Key, Leaf, List, Text};
use st_tree::{Field, Tree};

/// The type of a leaf with this value: `null`, `bool`, `int` or `text`.
pub fn leaf_type(leaf: &Leaf) -> &'static str
    ensures { result.now ≡ leaf_type leaf.now }
{
    match leaf {
        Leaf::Null => "null",
        Leaf::Bool(_) => "bool",
        Leaf::Int(_) => "int",
        Leaf::Words(_) => "text",
    }
}

// Whether a form has a field under a key.
fn has_rule(form: &Form, key: &Key) -> bool
    ensures { result ≡ is_some (field_in form.now key.now.0) }
{
    match form {
        Form::Array(_) => key.0.is_empty(),
        Form::Map(_) => is_key(key.0.as_str()),
        Form::Object(fields) => declared_field(fields, key).is_some(),
    }
}

// The types that a field of a node of this form may hold.
fn types_under<'a>(form: Option<&'a Form>, key: &Key) -> &'a [Text]
    ensures { result.now ≡ types_under (option_copied form.entry) key.now.0 }
{
    match form {
        Some(Form::Array(types)) if key.0.is_empty() => types.as_slice(),
        Some(Form::Map(types)) if is_key(key.0.as_str()) => types.as_slice(),
        Some(Form::Object(fields)) => match declared_field(fields, key) {
            Some(field) => field.types.as_slice(),
            None => &[],
        },
        _ => &[],
    }
}

// Whether there is one row, under the empty key.
fn is_row_alone(fields: &List<Field>) -> bool
    ensures { result ≡ is_row_alone (fields_view fields.now) }
{
    let mut fields = fields.as_slice().iter();
    let Some(field) = fields.next() else {
        return false;
    };
    fields.next().is_none() && field.row && field.key.0.is_empty()
}

// Whether there is one item.
#[tactic(auto, using(crate::proofs::Single::single_counts))]
fn is_one(items: &List<Tree>) -> bool
    ensures { result ≡ is_single (trees_view items.now) }
{
    items.len() == 1
}

// Whether a field is a single item.
fn is_single(field: &Field) -> bool
    ensures { result ≡ (not (field_view field.now).row && is_single (field_view field.now).items) }
{
    !field.row && is_one(&field.items)
}

// Whether there is no field.
#[tactic(auto, using(crate::proofs::Single::none_counts))]
fn has_none(fields: &List<Field>) -> bool
    ensures { result ≡ has_none (fields_view fields.now) }
{
    fields.is_empty()
}

// Whether there are single items under keys that rise.
fn keys_rise(fields: &List<Field>) -> bool
    ensures { result ≡ keys_rise [] (fields_view fields.now) }
{
    let mut before: &[u8] = b"";
    for field in fields.as_slice() {
        let key = field.key.0.as_str().as_bytes();
        if !is_single(field) || !before.cmp(key).is_lt() {
            return false;
        }
        before = key;
    }
    true
}

// Whether a form has each of the fields.
fn have_rules(form: &Form, fields: &List<Field>) -> bool
    ensures { result ≡ have_rules form.now (fields_view fields.now) }
{
    for field in fields.as_slice() {
        if !has_rule(form, &field.key) {
            return false;
        }
    }
    true
}

// Whether there is a field under a key.
fn has_key(fields: &List<Field>, key: &Key) -> bool
    ensures { result ≡ has_key (fields_view fields.now) key.now.0 }
{
    for field in fields.as_slice() {
        if field.key == *key {
            return true;
        }
    }
    false
}

// Whether the required fields are all there.
fn required_there(defs: &List<FieldDef>, fields: &List<Field>) -> bool
    ensures { result ≡ required_there defs.now (fields_view fields.now) }
{
    defs.as_slice().iter().all(|def| def.kind != KindName::Required || has_key(fields, &def.key))
}

// Whether the fields are as the form says.
fn fields_fit(form: &Form, fields: &List<Field>) -> bool
    ensures { result ≡ fields_fit form.now (fields_view fields.now) }
{
    match form {
        Form::Array(_) => is_row_alone(fields),
        Form::Map(_) => keys_rise(fields) && have_rules(form, fields),
        Form::Object(defs) => {
            keys_rise(fields) && have_rules(form, fields) && required_there(defs, fields)
        }
    }
}

// Whether a node has the type of its leaf's value, or a defined type whose form its fields have.
fn is_as_typed(form: Option<&Form>, tree: &Tree) -> bool
    ensures { result ≡ is_as_typed (option_copied form.entry) (out-Tree tree.now).ty (out-Tree tree.now).leaf (fields_view (out-Tree tree.now).fields) }
{
    match (&tree.leaf, form) {
        (Some(leaf), _) => tree.ty.as_str() == leaf_type(leaf) && has_none(&tree.fields),
        (None, Some(form)) => fields_fit(form, &tree.fields),
        (None, None) => false,
    }
}

// Whether a node by itself is allowed in a place of these types.
fn node_fits(types: &[Text], form: Option<&Form>, tree: &Tree) -> bool
    ensures { result ≡ (is_among (out-Tree tree.now).ty types.now && is_as_typed (option_copied form.entry) (out-Tree tree.now).ty (out-Tree tree.now).leaf (fields_view (out-Tree tree.now).fields)) }
{
    types.contains(&tree.ty) && is_as_typed(form, tree)
}

// How far a walk in preorder is: the number of the next node, and the first that is not allowed.
#[derive(Clone, Copy)]
struct Walk {
    next: u32,
    fault: Option<NotAllowed>,
}

// One node further, which is allowed or not.
fn walk_on(walk: Walk, fits: bool) -> Walk
    requires { walk.next + 1 < 2 ^ 32 }
    ensures { result ≡ walk_on walk fits }
{
    let fault = match walk.fault {
        None if !fits => Some(NotAllowed { at: walk.next }),
        fault => fault,
    };
    Walk {
        next: walk.next + 1,
        fault,
    }
}

// Goes through a tree in preorder.
#[cycle(walking)]
fn walk_tree(schema: &Schema, types: &[Text], tree: &Tree, walk: Walk) -> Walk
    requires { walk.next + node_count (view tree.now) < 2 ^ 32 }
    ensures walked { result ≡ walk_over walk (verdicts schema.now types.now (view tree.now)) }
    ensures counted { result.next ≡ walk.next + node_count (view tree.now) }
{
    let form = schema.form(&tree.ty);
    let mut now = walk_on(walk, node_fits(types, form, tree));
    for field in tree.fields.as_slice() {
        now = walk_field(schema, types_under(form, &field.key), field, now);
    }
    now
}

// Goes through the items of a field that may hold these types.
#[cycle(walking)]
fn walk_field(schema: &Schema, types: &[Text], field: &Field, walk: Walk) -> Walk
    requires { walk.next + item_count (field_view field.now).items < 2 ^ 32 }
    ensures walked { result ≡ walk_over walk (items_verdicts schema.now types.now (field_view field.now).items) }
    ensures counted { result.next ≡ walk.next + item_count (field_view field.now).items }
{
    let mut now = walk;
    for item in field.items.as_slice() {
        now = walk_tree(schema, types, item, now);
    }
    now
}

// Goes through trees in preorder, from the first.
fn walk_trees(schema: &Schema, types: &[Text], trees: &[Tree]) -> Walk
    requires { item_count (trees_view trees.now) < 2 ^ 32 }
    ensures { result ≡ walk_over (record { next = 0; fault = None }) (items_verdicts schema.now types.now (trees_view trees.now)) }
{
    let mut now = Walk {
        next: 0,
        fault: None,
    };
    for tree in trees {
        now = walk_tree(schema, types, tree, now);
    }
    now
}

impl Schema {
    /// Nothing, where the tree conforms to the schema in a place of these types.
    #[tactic(auto, using(crate::proofs::Walking::allows_walked))]
    pub fn allows(&self, types: &List<Text>, tree: &Tree) -> Result<(), NotAllowed>
        requires { node_count (view tree.now) < 2 ^ 32 }
        ensures { result ≡ allows_of self.now types.now (view tree.now) }
    {
        let start = Walk {
            next: 0,
            fault: None,
        };
        match walk_tree(self, types.as_slice(), tree, start).fault {
            None => Ok(()),
            Some(fault) => Err(fault),
        }
    }

    /// Nothing, where all the trees conform to the schema in a place of these types. Their nodes are counted together.
    #[tactic(auto, using(crate::proofs::Walking::allows_all_walked))]
    pub fn allows_all(&self, types: &List<Text>, trees: &List<Tree>) -> Result<(), NotAllowed>
        requires { item_count (trees_view trees.now) < 2 ^ 32 }
        ensures { result ≡ allows_all_of self.now types.now (trees_view trees.now) }
    {
        match walk_trees(self, types.as_slice(), trees.as_slice()).fault {
            None => Ok(()),
            Some(fault) => Err(fault),
        }
    }
}

/// A tree that a schema allows is of the form of trees.
#[tactic(auto, using(crate::proofs::AllowedForm::conforming_formed))]
pub fn allowed_has_form()
    ensures { (s : SchemaView) (types : Seq (Seq ℕ)) (t : Node) → conforms s types t ≡ true → has_form t ≡ true }
{}

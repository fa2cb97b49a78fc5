//! A schema, documents that open under it, and edits in short.
ghost use Rattle.std.specs.Prelude.{◌≡◌, ◌<◌, ◌^◌, length, Ok, IfOk, OnOk};
ghost use Rattle.st_tree.specs.Node.{trees_view, view};
ghost use Rattle.st_tree.specs.Size.{check_items, check_of};
ghost use Rattle.st_marks.specs.Document.{IsSoundInForm};
ghost use Rattle.st_doc.specs.Doc.{document_of};
ghost use Rattle.st_edits.specs.Resolve.{IsWithin};

use st_doc::Doc;
use st_edits::NameCounters;
use st_ids::{Key, List, Or, Path, Place, Rev, Text};
use st_json::read_line;
use st_marks::{Intent, Verdict};
use st_resolve::resolve;
use st_schema::{Schema, read_tree};
use st_tree::{Edit, EditFault, Tree, check, check_trees};
use std::alloc::{AllocError, Global};
use std::test::Fail;

// Lists of texts, lists and cards, and a card with an optional note and a title.
const SCHEMA: &str =
    r#"{"root":["list"],"types":[{"array":["text","list","card"],"name":"list"},{"name":"card","object":{"note":["opt",["text","list"]],"title":["req",["text"]]}}]}"#;

fn schema(alloc: Global) -> Result<Schema, Fail> {
    let value = read_line(alloc, SCHEMA.as_bytes())?;
    Ok(Schema::read(alloc, &value)?)
}

fn tree(alloc: Global, line: &str) -> Result<Tree, Fail> {
    let value = read_line(alloc, line.as_bytes())?;
    Ok(read_tree(alloc, &value)?)
}

// The document that opens with a tree which the schema allows.
fn start(alloc: Global, schema: &Schema, tree: &Tree) -> Result<Doc, Fail>
    ensures { IfOk result (λ d. IsSoundInForm (document_of d)) }
{
    if check(tree) != Ok(()) {
        return Err(Fail::from("too large"));
    }
    match schema.allows(schema.root(), tree) {
        Ok(()) => Ok(Doc::start(alloc, Text::from_str(alloc, SCHEMA)?, tree)?),
        Err(_) => Err(Fail::from("not allowed")),
    }
}

// The document that opens with the tree of a line.
fn open_doc(alloc: Global, schema: &Schema, line: &str) -> Result<Doc, Fail>
    ensures { IfOk result (λ d. IsSoundInForm (document_of d)) }
{
    let tree = tree(alloc, line)?;
    start(alloc, schema, &tree)
}

// Carries an intent out in a document that it fits.
fn carry(alloc: Global, doc: &mut Doc, intent: &Intent) -> Result<Verdict, Fail>
    requires { IsSoundInForm (document_of doc.old) }
    ensures { OnOk result (IsSoundInForm (document_of doc.new)) }
{
    if !doc.fits(intent) || !doc.has_room(intent) {
        return Err(Fail::from("does not fit"));
    }
    Ok(doc.carry(alloc, intent)?)
}

/// Whether a document shows the tree of a line.
pub fn shows(alloc: Global, doc: &Doc, line: &str) -> Result<bool, AllocError>
    requires { IsSoundInForm (document_of doc.now) }
{
    let arrays = [Text::from_str(alloc, "list")?];
    Ok(doc.whole(alloc, &arrays)?.as_str() == line)
}

fn push_tree(alloc: Global, trees: &mut List<Tree>, line: &str) -> Result<(), Fail> {
    let tree = tree(alloc, line)?;
    trees.push(tree)?;
    Ok(())
}

fn trees(alloc: Global, lines: &[&str]) -> Result<List<Tree>, Fail>
    ensures { IfOk result (λ ts. check_items (trees_view ts) ≡ Ok tt) }
{
    let mut trees = List::new(alloc);
    for line in lines {
        push_tree(alloc, &mut trees, line)?;
    }
    if check_trees(&trees) != Ok(()) {
        return Err(Fail::from("too large"));
    }
    Ok(trees)
}

/// The places of a path: keys and indexes.
pub type Places = &'static [(&'static str, u32)];

fn push_place(alloc: Global, path: &mut Path, key: &str, index: u32) -> Result<(), AllocError> {
    let key = Key(Text::from_str(alloc, key)?);
    path.push(Place { key, index })?;
    Ok(())
}

fn path(alloc: Global, places: Places) -> Result<Path, Fail>
    ensures { IfOk result (λ p. length p < 2 ^ 32) }
{
    let mut path = Path::new(alloc);
    for (key, index) in places {
        push_place(alloc, &mut path, key, *index)?;
    }
    if path.len() > 9 {
        return Err(Fail::from("too long"));
    }
    Ok(path)
}

fn key(alloc: Global, key: &str) -> Result<Key, AllocError> {
    Ok(Key(Text::from_str(alloc, key)?))
}

/// An edit in short.
#[derive(Clone, Copy)]
pub enum Case {
    Insert(Places, u32, &'static [&'static str]),
    Remove(Places, u32, u32),
    Move(Places, u32, u32, Places, &'static str, u32),
    Put(Places, &'static str, &'static str),
    Clear(Places, &'static str),
    Need(Places),
}

fn insert(alloc: Global, at: Places, index: u32, items: &[&str]) -> Result<Edit, Fail>
    ensures { IfOk result IsWithin }
{
    let items = trees(alloc, items)?;
    let at = path(alloc, at)?;
    let key = Key(Text::new(alloc));
    Ok(Edit::Insert {
        at,
        key,
        index,
        items,
    })
}

fn remove(alloc: Global, at: Places, index: u32, count: u32) -> Result<Edit, Fail>
    ensures { IfOk result IsWithin }
{
    let at = path(alloc, at)?;
    let key = Key(Text::new(alloc));
    Ok(Edit::Remove {
        at,
        key,
        index,
        count,
    })
}

fn relocate(
    alloc: Global,
    at: Places,
    index: u32,
    count: u32,
    to: Places,
    to_key: &str,
    to_index: u32,
) -> Result<Edit, Fail>
    ensures { IfOk result IsWithin }
{
    let at = path(alloc, at)?;
    let to = path(alloc, to)?;
    let to_key = key(alloc, to_key)?;
    let key = Key(Text::new(alloc));
    Ok(Edit::Move {
        at,
        key,
        index,
        count,
        to,
        to_key,
        to_index,
    })
}

// A tree within the limits.
fn small_tree(alloc: Global, line: &str) -> Result<Tree, Fail>
    ensures { IfOk result (λ t. check_of (view t) ≡ Ok tt) }
{
    let tree = tree(alloc, line)?;
    if check(&tree) != Ok(()) {
        return Err(Fail::from("too large"));
    }
    Ok(tree)
}

fn put(alloc: Global, at: Places, under: &str, item: &str) -> Result<Edit, Fail>
    ensures { IfOk result IsWithin }
{
    let item = small_tree(alloc, item)?;
    let at = path(alloc, at)?;
    let key = key(alloc, under)?;
    Ok(Edit::Put { at, key, item })
}

fn clear(alloc: Global, at: Places, under: &str) -> Result<Edit, Fail>
    ensures { IfOk result IsWithin }
{
    let at = path(alloc, at)?;
    let key = key(alloc, under)?;
    Ok(Edit::Clear { at, key })
}

// The edit of a case.
fn edit(alloc: Global, case: Case) -> Result<Edit, Fail>
    ensures { IfOk result IsWithin }
{
    match case {
        Case::Insert(at, index, items) => insert(alloc, at, index, items),
        Case::Remove(at, index, count) => remove(alloc, at, index, count),
        Case::Move(at, index, count, to, to_key, to_index) => {
            relocate(alloc, at, index, count, to, to_key, to_index)
        }
        Case::Put(at, under, item) => put(alloc, at, under, item),
        Case::Clear(at, under) => clear(alloc, at, under),
        Case::Need(at) => Ok(Edit::Need {
            at: path(alloc, at)?,
        }),
    }
}

/// An intent, or why an edit is refused.
pub type Resolved = Result<Intent, Or<EditFault>>;

/// What a case means in a document, with the names that are free, or why it is refused.
pub fn resolved(
    alloc: Global,
    schema: &Schema,
    doc: &Doc,
    given: NameCounters,
    case: Case,
) -> Result<Resolved, Fail>
    requires nodes { given.nodes < 2 ^ 31 }
    requires cells { given.cells < 2 ^ 31 }
{
    match edit(alloc, case) {
        Ok(edit) => Ok(resolve(alloc, doc, schema, given, &edit)),
        Err(fail) => Err(fail),
    }
}

/// What a case means in a document, as a part of a commit that has made names.
pub fn part(
    alloc: Global,
    schema: &Schema,
    doc: &Doc,
    given: NameCounters,
    case: Case,
) -> Result<Intent, Fail> {
    if given.nodes > 9 || given.cells > 9 {
        return Err(Fail::from("too many names"));
    }
    Ok(resolved(alloc, schema, doc, given, case)??)
}

/// A document under a schema, and intents that were made in it.
#[derive(Drop)]
pub struct Scene {
    pub schema: Schema,
    pub doc: Doc,
    pub intents: List<Intent>,
}

impl Scene {
    fn new(alloc: Global) -> Result<Scene, Fail> {
        let schema = schema(alloc)?;
        let doc = open_doc(alloc, &schema, r#"{"list":[]}"#)?;
        let intents = List::new(alloc);
        Ok(Scene {
            schema,
            doc,
            intents,
        })
    }

    /// Opens with the tree of a line. The intents stay.
    pub fn open_again(&mut self, alloc: Global, line: &str) -> Result<(), Fail>
        ensures { OnOk result (IsSoundInForm (document_of self.new.doc)) }
    {
        self.doc = open_doc(alloc, &self.schema, line)?;
        Ok(())
    }

    /// Opens with the tree of a line, and no intents.
    pub fn open(&mut self, alloc: Global, line: &str) -> Result<(), Fail>
        ensures { OnOk result (IsSoundInForm (document_of self.new.doc)) }
    {
        self.intents = List::new(alloc);
        self.open_again(alloc, line)
    }

    /// The commit of a case here, by a session.
    pub fn made(&self, alloc: Global, session: u32, case: Case) -> Result<Intent, Fail> {
        let given = NameCounters {
            rev: Rev { session, num: 1 },
            nodes: 0,
            cells: 0,
        };
        part(alloc, &self.schema, &self.doc, given, case)
    }

    /// Adds an intent.
    pub fn add(&mut self, intent: Intent) -> Result<(), Fail>
        ensures { self.new.doc ≡ self.old.doc }
    {
        match self.intents.push(intent) {
            Ok(()) => Ok(()),
            Err(_) => Err(Fail::from("no memory")),
        }
    }

    /// Adds the commit of a case here, by a session.
    pub fn commit(&mut self, alloc: Global, session: u32, case: Case) -> Result<(), Fail>
        ensures { self.new.doc ≡ self.old.doc }
    {
        let intent = self.made(alloc, session, case)?;
        self.add(intent)
    }

    /// Carries out one of the intents.
    pub fn carry(&mut self, alloc: Global, at: usize) -> Result<Verdict, Fail>
        requires { IsSoundInForm (document_of self.old.doc) }
        ensures { OnOk result (IsSoundInForm (document_of self.new.doc)) }
    {
        match self.intents.get(at) {
            Some(intent) => carry(alloc, &mut self.doc, intent),
            None => Err(Fail::from("no intent")),
        }
    }

    /// Carries out an intent.
    pub fn carry_new(&mut self, alloc: Global, intent: Intent) -> Result<Verdict, Fail>
        requires { IsSoundInForm (document_of self.old.doc) }
        ensures { OnOk result (IsSoundInForm (document_of self.new.doc)) }
    {
        carry(alloc, &mut self.doc, &intent)
    }

    /// Makes the commit of a case, if there is one, by the first session, and carries it out.
    pub fn carry_first(&mut self, alloc: Global, case: Option<Case>) -> Result<(), Fail>
        requires { IsSoundInForm (document_of self.old.doc) }
        ensures { OnOk result (IsSoundInForm (document_of self.new.doc)) }
    {
        if let Some(case) = case {
            let intent = self.made(alloc, 1, case)?;
            self.carry_new(alloc, intent)?;
        }
        Ok(())
    }

    /// Whether the document shows the tree of a line.
    pub fn shows(&self, alloc: Global, line: &str) -> Result<bool, AllocError>
        requires { IsSoundInForm (document_of self.now.doc) }
    {
        shows(alloc, &self.doc, line)
    }
}

/// The document after a commit that is sound.
pub fn after(alloc: Global, doc: &Doc, intent: &Intent) -> Result<Doc, Fail>
    requires { IsSoundInForm (document_of doc.now) }
    ensures { IfOk result (λ d. IsSoundInForm (document_of d)) }
{
    let mut after = doc.copy(alloc)?;
    match carry(alloc, &mut after, intent)? {
        Verdict::Sound => Ok(after),
        _ => Err(Fail::from("void")),
    }
}

/// A row of a table.
pub trait Row {
    /// Whether it is so.
    fn is_so(&self, alloc: Global, scene: &mut Scene) -> Result<bool, Fail>;

    /// What is told of it where it isn't.
    fn message(&self) -> &'static str;
}

// What is told of the first row that isn't so.
fn first_wrong<R: Row>(
    alloc: Global,
    scene: &mut Scene,
    rows: &[R],
) -> Result<Option<&'static str>, Fail> {
    for row in rows {
        if !row.is_so(alloc, scene)? {
            return Ok(Some(row.message()));
        }
    }
    Ok(None)
}

/// What is told of the first row of a table that isn't so.
pub fn wrong_row<R: Row>(alloc: Global, rows: &[R]) -> Result<Option<&'static str>, Fail> {
    let mut scene = Scene::new(alloc)?;
    first_wrong(alloc, &mut scene, rows)
}

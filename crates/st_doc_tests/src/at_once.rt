//! Two authors edit one document at once: each edit is resolved in the document that both have, and the commits are
//! carried out in either order.
ghost use Rattle.st_marks.specs.Document.{IsSoundInForm};
ghost use Rattle.st_doc.specs.Doc.{document_of};

use crate::given::{Case, Row, Scene, wrong_row};
use st_marks::Verdict;
use std::alloc::Global;
use std::test::Fail;

// What two authors do to a tree, and the tree after the first author's commit and then the second's, and after the
// second's and then the first's, with whether the later of the two is void.
#[derive(Clone, Copy)]
struct AtOnce {
    tree: &'static str,
    first: Case,
    second: Case,
    in_order: (&'static str, bool),
    turned: (&'static str, bool),
}

// Whether two of the intents, one after the other, lead to a tree, with the second of them void or not.
fn lead(
    alloc: Global,
    scene: &mut Scene,
    first: usize,
    second: usize,
    to: (&str, bool),
) -> Result<bool, Fail>
    requires { IsSoundInForm (document_of scene.old.doc) }
{
    scene.carry(alloc, first)?;
    let is_void = scene.carry(alloc, second)? != Verdict::Sound;
    let same = scene.shows(alloc, to.0)?;
    Ok(same && is_void == to.1)
}

impl Row for AtOnce {
    fn is_so(&self, alloc: Global, scene: &mut Scene) -> Result<bool, Fail> {
        scene.open(alloc, self.tree)?;
        scene.commit(alloc, 1, self.first)?;
        scene.commit(alloc, 2, self.second)?;
        let in_order = lead(alloc, scene, 0, 1, self.in_order)?;
        scene.open_again(alloc, self.tree)?;
        let turned = lead(alloc, scene, 1, 0, self.turned)?;
        Ok(in_order && turned)
    }

    fn message(&self) -> &'static str {
        self.in_order.0
    }
}

const MOVED: Case = Case::Move(&[("", 0)], 0, 1, &[("", 1)], "", 0);

static ROWS: [AtOnce; 6] = [
    // A node that one author moves to another field keeps what the other author puts into it.
    AtOnce {
        tree: r#"{"list":[{"list":[{"list":[]}]},{"list":[]}]}"#,
        first: MOVED,
        second: Case::Insert(&[("", 0), ("", 0)], 0, &[r#""b""#]),
        in_order: (r#"{"list":[{"list":[]},{"list":[{"list":["b"]}]}]}"#, false),
        turned: (r#"{"list":[{"list":[]},{"list":[{"list":["b"]}]}]}"#, false),
    },
    // Of a removal and a move of one node the later decides.
    AtOnce {
        tree: r#"{"list":[{"list":[{"list":[]}]},{"list":[]}]}"#,
        first: Case::Remove(&[("", 0)], 0, 1),
        second: MOVED,
        in_order: (r#"{"list":[{"list":[]},{"list":[{"list":[]}]}]}"#, false),
        turned: (r#"{"list":[{"list":[]},{"list":[]}]}"#, false),
    },
    // Two moves that together would make a ring: the later is void.
    AtOnce {
        tree: r#"{"list":[{"list":["n"]},{"list":["m"]}]}"#,
        first: Case::Move(&[], 0, 1, &[("", 1)], "", 1),
        second: Case::Move(&[], 1, 1, &[("", 0)], "", 1),
        in_order: (r#"{"list":[{"list":["m",{"list":["n"]}]}]}"#, true),
        turned: (r#"{"list":[{"list":["n",{"list":["m"]}]}]}"#, true),
    },
    // A required field is never empty: the later of two settings stays, and the other's item goes.
    AtOnce {
        tree: r#"{"list":[{"card":{"title":"p"}}]}"#,
        first: Case::Put(&[("", 0)], "title", r#""a""#),
        second: Case::Put(&[("", 0)], "title", r#""b""#),
        in_order: (r#"{"list":[{"card":{"title":"b"}}]}"#, false),
        turned: (r#"{"list":[{"card":{"title":"a"}}]}"#, false),
    },
    // The later of two groups at one place stands on the left.
    AtOnce {
        tree: r#"{"list":["x"]}"#,
        first: Case::Insert(&[], 1, &[r#""a""#]),
        second: Case::Insert(&[], 1, &[r#""b""#, r#""c""#]),
        in_order: (r#"{"list":["x","b","c","a"]}"#, false),
        turned: (r#"{"list":["x","a","b","c"]}"#, false),
    },
    // A group whose left neighbour is removed stays where it was.
    AtOnce {
        tree: r#"{"list":["w","x","y"]}"#,
        first: Case::Remove(&[], 1, 1),
        second: Case::Insert(&[], 2, &[r#""b""#]),
        in_order: (r#"{"list":["w","b","y"]}"#, false),
        turned: (r#"{"list":["w","b","y"]}"#, false),
    },
];

#[test]
fn both_orders(rt: HostRuntime) -> Result<(), Fail> {
    let wrong = wrong_row(rt.alloc(), &ROWS)?;
    assert!(rt; wrong.is_none(), "{wrong:?}");
    Ok(())
}

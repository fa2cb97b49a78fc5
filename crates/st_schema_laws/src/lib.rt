//! Documents and intents that keep to a schema, trees before and after an edit, and both where schemas are widened: laws.
#![tactic(auto)]

mod laws;
mod tree_laws;
mod upgrade_laws;

pub use laws::{
    a_conforming_document_shows_an_allowed_tree, agree_in_turn, agree_later, agrees_elsewhere,
    carrying_out_conforms, homes_can_be_told, joins_agree, new_trees_agree, opening_conforms,
    resolved_edits_agree, resolved_edits_keep_conformity, runs_conform, schema_changes_agree,
    simple_edits_agree, ways_back_agree, wider_schemas_conform,
};
pub use tree_laws::{
    clearing_is_seen, edits_are_seen, insertion_is_seen, move_is_seen, needing_is_seen,
    opening_is_seen, removal_is_seen, resolved_edits_are_typed, same_below_same_tree,
    setting_is_seen, typed_intents_keep_types,
};
pub use upgrade_laws::{
    commits_agree_in_turn, commits_can_be_told, edits_agree_in_line, edits_name_within,
    lines_go_on, parts_conform, parts_resolve, parts_show, schemas_are_read, schemas_come_earlier,
    schemas_widen, shown_trees_are_allowed, upgrades_are_seen, ways_back_agree_in_line,
};

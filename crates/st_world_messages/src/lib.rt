//! Each message that a world's log holds is valid behind the entries before it.
#![tactic(auto)]

mod laws;

pub use laws::{
    changes_make_no_more_names, entries_have_messages, messages_are_in_context,
    messages_carry_the_next_ids, messages_come_in_order, messages_have_new_revisions,
    messages_have_room, messages_keep_to_their_schemas, order_begins, order_goes_on,
    replayed_logs_are_shown, steps_lead_so, texts_begin, texts_go_on, world_logs_are_replayed,
    world_logs_are_valid, world_messages_are_valid, world_texts_are_taken,
};

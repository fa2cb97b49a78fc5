//! Laws on what an author tells beside a log: each is the contract of a function that does nothing.
ghost use Rattle.std.specs.Prelude.{◌≡◌, ◌≤◌, ◌+◌, ◌^◌, ℕ, List, Some, slice_get, take};
ghost use Rattle.st_change_writer.specs.Told.{change_data};
ghost use Rattle.st_clusters.specs.declared.ids.IdRange.{IdRange};
ghost use Rattle.st_ids.specs.declared.names.Rev.{Rev};
ghost use Rattle.st_lists.specs.Log.{ranges_in};
ghost use Rattle.st_lists.specs.declared.lists.Body.TheVariants.{Commit};
ghost use Rattle.st_lists.specs.declared.lists.Entry.{Entry};
ghost use Rattle.st_marks.specs.declared.changes.Change.{Change};
ghost use Rattle.st_marks.specs.declared.intents.Intent.{Intent};
ghost use Rattle.st_msg.specs.Messages.{MessageView, message_data};
ghost use Rattle.st_msg.specs.Within.{IsWithin};
ghost use Rattle.st_normal_texts.specs.NormalTexts.{IsNormalText};
ghost use Rattle.st_seen_laws.specs.Told.{CanBeTold, CanSay, HaveFewIds, IsNameKnown, IsReadBack, Tells};
ghost use Rattle.st_texts.specs.Names.{names_seen};
ghost use Rattle.st_valid.specs.declared.message.Message.{Message};
ghost use Rattle.st_valid_laws.specs.Shape.{IsChangeRead, IsRead};

/// Where a log has few ids, so have the entries before each of its texts, and the ids that the text
/// carries are below 2^32: what the laws below ask of a log and a text.
pub fn texts_have_few_ids()
    ensures { (log : List Entry) (i : ℕ) (e : Entry) (reference : ℕ) (ids : IdRange) (N : Intent)
        → HaveFewIds (ranges_in log) → slice_get log i ≡ Some e → e.body ≡ Commit reference ids N
        → HaveFewIds (ranges_in (take i log)) × (ids.first + ids.count ≤ 2 ^ 32) }
{}

/// Each name that the author of a text knows is told by a number of 64 bits, and that number is read
/// beside the log as the name, where the ids that the text carries are below 2^32.
pub fn seen_names_are_read_back()
    ensures { (log : List Entry) (session reference : ℕ) (ids : IdRange) (r : Rev)
        → HaveFewIds (ranges_in log) → ids.first + ids.count ≤ 2 ^ 32
        → IsNameKnown log session reference ids r → IsReadBack log session reference ids r }
{}

/// A normal change that the author of a text can tell is read beside the log, of its value, as
/// itself.
pub fn told_changes_are_read()
    ensures { (log : List Entry) (session reference : ℕ) (ids : IdRange) (C : Change)
        → HaveFewIds (ranges_in log) → ids.first + ids.count ≤ 2 ^ 32
        → CanBeTold log session reference ids C → IsNormalText C
        → IsChangeRead log session reference ids
        (change_data (names_seen log session reference ids) C) (Some (Some C)) }
{}

/// What is told of a message behind a log is read there as that message, where it can be written,
/// and its session can say so.
pub fn told_messages_are_read()
    ensures { (log : List Entry) (m : Message) (v : MessageView) → HaveFewIds (ranges_in log)
        → IsWithin v → Tells log m v → CanSay log m.session m.said
        → IsRead log (message_data v) (Some m) }
{}

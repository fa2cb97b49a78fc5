//! Laws on the messages of a world: each is the contract of a function that does nothing.
ghost use Rattle.std.specs.Prelude.{◌≡◌, ◌≤◌, ◌+◌, [], ℕ, List, Option as Maybe, None, Some, length, slice_get, take};
ghost use Rattle.serde_json.specs.Data.{Data};
ghost use Rattle.st_clusters.specs.Table.{most_ids};
ghost use Rattle.st_lists.specs.Clients.{empty_state};
ghost use Rattle.st_lists.specs.Lines.{main_line};
ghost use Rattle.st_lists.specs.Log.{commits_in};
ghost use Rattle.st_lists.specs.Names.{names_made};
ghost use Rattle.st_lists.specs.declared.lists.Client.{Client};
ghost use Rattle.st_lists.specs.declared.lists.Entry.{Entry};
ghost use Rattle.st_lists.specs.declared.lists.WorldState.{WorldState};
ghost use Rattle.st_marks.specs.Document.{Document, IsSoundInForm};
ghost use Rattle.st_marks.specs.Embedding.{IsEmbedding};
ghost use Rattle.st_marks.specs.Intent.{Fits};
ghost use Rattle.st_marks.specs.Run.{Run};
ghost use Rattle.st_marks.specs.declared.changes.Change.{Change};
ghost use Rattle.st_marks.specs.declared.intents.Intent.{Intent};
ghost use Rattle.st_marks.specs.declared.verdicts.Verdict.{Verdict};
ghost use Rattle.st_msg.specs.Messages.{MessageView, message_data};
ghost use Rattle.st_script.specs.Header.{HeaderView};
ghost use Rattle.st_script.specs.StepText.{FitsLine};
ghost use Rattle.st_script.specs.Steps.{StepView};
ghost use Rattle.st_script.specs.declared.answer.Answer.{Answer};
ghost use Rattle.st_texts.specs.Texts.{IsMessageOf};
ghost use Rattle.st_valid.specs.Room.{names_of_change};
ghost use Rattle.st_valid.specs.declared.message.Message.{Message};
ghost use Rattle.st_valid.specs.declared.message.ReplayCause.TheVariants as cause;
ghost use Rattle.st_valid_laws.specs.Messages.{IsValid, IsValidLog, Passes};
ghost use Rattle.st_valid_laws.specs.Taking.{IsTaken};
ghost use Rattle.st_world.specs.World.{HasShown, IsNext, opening_document};
ghost use Rattle.st_world_laws.specs.Worlds.{IsHeader, IsWorld, KeepsRules};
ghost use Rattle.st_seen_laws.specs.Told.{Tells};
ghost use Rattle.st_world_messages.specs.Messages.{IsMessageAt};
ghost use Rattle.st_world_messages.specs.Order.{SendsInOrder};
ghost use Rattle.st_world_messages.specs.Texts.{AreMessagesFrom, AreTaken, SendsTexts};
ghost use Rattle.st_world_messages.specs.Steps.{BringsVersion4, IsVersion4, LeadsTo};

/// A step does one of seven things to a world's lists: nothing, or one client goes on by itself, or
/// one entry comes, with its client. A UUID that comes so is of version 4, as the step's is.
pub fn steps_lead_so()
    ensures { (h : HeaderView) (w v : WorldState) (s : StepView) (a : Answer) → IsWorld h w
        → BringsVersion4 s.act → IsNext h w s v a → LeadsTo IsVersion4 w v }
{}

/// Before any client joins all is in order.
pub fn order_begins()
    ensures { (h : HeaderView) → IsHeader h → SendsInOrder h 0 empty_state }
{}

/// Whatever a step leads to is in order again, unless the step brings in a schema that breaks the
/// rules, or a UUID that isn't of version 4.
pub fn order_goes_on()
    ensures { (h : HeaderView) (steps : ℕ) (w v : WorldState) (s : StepView) (a : Answer)
        → SendsInOrder h steps w → KeepsRules s.act → BringsVersion4 s.act
        → IsNext h w s v a → SendsInOrder h (steps + 1) v }
{}

/// Each entry of the log has a message, and this is what the entry's text tells.
pub fn entries_have_messages()
    ensures there { (h : HeaderView) (steps : ℕ) (w : WorldState) (i : ℕ) (e : Entry)
        → SendsInOrder h steps w → slice_get w.log i ≡ Some e
        → (m : Message) × IsMessageAt (opening_document h) w.log i m }
    ensures told { (O : Document) (log : List Entry) (i : ℕ) (m : Message) (v : MessageView)
        → IsMessageAt O log i m → IsMessageOf O log (i + 1) v → Tells (take i log) m v }
{}

/// The message of each entry has the next number, and the minimum after it; its session may say
/// what it says; and its reference is in the window, and not below that of its session before.
pub fn messages_come_in_order()
    ensures number { (h : HeaderView) (steps : ℕ) (w : WorldState) (i : ℕ) (m : Message)
        → SendsInOrder h steps w → IsMessageAt (opening_document h) w.log i m
        → Passes (opening_document h) (take i w.log) m cause.Sequence }
    ensures session { (h : HeaderView) (steps : ℕ) (w : WorldState) (i : ℕ) (m : Message)
        → SendsInOrder h steps w → IsMessageAt (opening_document h) w.log i m
        → Passes (opening_document h) (take i w.log) m cause.Session }
    ensures window { (h : HeaderView) (steps : ℕ) (w : WorldState) (i : ℕ) (m : Message)
        → SendsInOrder h steps w → IsMessageAt (opening_document h) w.log i m
        → Passes (opening_document h) (take i w.log) m cause.Window }
    ensures reference { (h : HeaderView) (steps : ℕ) (w : WorldState) (i : ℕ) (m : Message)
        → SendsInOrder h steps w → IsMessageAt (opening_document h) w.log i m
        → Passes (opening_document h) (take i w.log) m cause.RefBack }
{}

/// It carries the next ids of its session, as long as there were no more steps than ids that a
/// session has.
pub fn messages_carry_the_next_ids()
    ensures { (h : HeaderView) (steps : ℕ) (w : WorldState) (i : ℕ) (m : Message)
        → SendsInOrder h steps w → steps ≤ most_ids
        → IsMessageAt (opening_document h) w.log i m
        → Passes (opening_document h) (take i w.log) m cause.Ids }
{}

/// Its commit has a revision of its session that no other has.
pub fn messages_have_new_revisions()
    ensures { (h : HeaderView) (steps : ℕ) (w : WorldState) (i : ℕ) (m : Message)
        → SendsInOrder h steps w → IsMessageAt (opening_document h) w.log i m
        → Passes (opening_document h) (take i w.log) m cause.Revision }
{}

/// A change makes no more names than the intent that it is the embedding of.
pub fn changes_make_no_more_names()
    ensures { (D : Document) (N : Intent) (C : Change) → IsSoundInForm D → Fits D N
        → IsEmbedding D N C → names_of_change C ≤ names_made N }
{}

/// There is room for it: in the log, for one session more, and for its names.
pub fn messages_have_room()
    ensures { (h : HeaderView) (steps : ℕ) (w : WorldState) (i : ℕ) (m : Message)
        → SendsInOrder h steps w → IsMessageAt (opening_document h) w.log i m
        → Passes (opening_document h) (take i w.log) m cause.Limit }
{}

/// Its change says something in its author's document, and was made under a schema that its
/// author had.
pub fn messages_are_in_context()
    ensures { (h : HeaderView) (steps : ℕ) (w : WorldState) (i : ℕ) (m : Message)
        → SendsInOrder h steps w → IsMessageAt (opening_document h) w.log i m
        → Passes (opening_document h) (take i w.log) m cause.Context }
{}

/// It keeps to the schema under which it was made.
pub fn messages_keep_to_their_schemas()
    ensures { (h : HeaderView) (steps : ℕ) (w : WorldState) (i : ℕ) (m : Message)
        → SendsInOrder h steps w → IsMessageAt (opening_document h) w.log i m
        → Passes (opening_document h) (take i w.log) m cause.Schema }
{}

/// So it is valid behind the entries before it.
pub fn world_messages_are_valid()
    ensures { (h : HeaderView) (steps : ℕ) (w : WorldState) (i : ℕ) (m : Message)
        → SendsInOrder h steps w → steps ≤ most_ids
        → IsMessageAt (opening_document h) w.log i m
        → IsValid (opening_document h) (take i w.log) m }
{}

/// And the log of a world, as it stands, is a log of valid messages: the commit of each entry is one
/// that its message may mean.
pub fn world_logs_are_valid()
    ensures { (h : HeaderView) (steps : ℕ) (w : WorldState) → SendsInOrder h steps w
        → steps ≤ most_ids → IsValidLog (opening_document h) w.log }
{}

/// Before any client joins nothing is to be told.
pub fn texts_begin()
    ensures { (h : HeaderView) → IsHeader h → SendsTexts h 0 empty_state }
{}

/// Whatever a step leads to that a line of a trace can hold, the text of each entry can be read
/// again.
pub fn texts_go_on()
    ensures { (h : HeaderView) (steps : ℕ) (w v : WorldState) (s : StepView) (a : Answer)
        → SendsTexts h steps w → FitsLine s → IsNext h w s v a → SendsTexts h (steps + 1) v }
{}

/// So the text of each entry, as a value, is taken behind the entries before it, and the log goes on
/// by that entry.
pub fn world_texts_are_taken()
    ensures { (h : HeaderView) (steps : ℕ) (w : WorldState) (i : ℕ) (e : Entry) (v : MessageView)
        → SendsTexts h steps w → steps ≤ most_ids → slice_get w.log i ≡ Some e
        → IsMessageOf (opening_document h) w.log (i + 1) v
        → (void : Maybe Verdict) × IsTaken (opening_document h) (take i w.log) (message_data v)
        (take (i + 1) w.log) (i + 1) void }
{}

/// And the texts of all entries, replayed one after the other, are all taken, and lead to the log.
pub fn world_logs_are_replayed()
    ensures { (h : HeaderView) (steps : ℕ) (w : WorldState) (texts : List Data)
        → SendsTexts h steps w → steps ≤ most_ids
        → AreMessagesFrom (opening_document h) w.log 0 texts
        → AreTaken (opening_document h) [] texts w.log }
{}

/// A client that received all of a log, and has nothing pending and no transaction open, shows the
/// document to which the log's commits lead: that whose tree a replay of the log tells at its end.
pub fn replayed_logs_are_shown()
    ensures { (O D : Document) (log : List Entry) (c : Client) → c.received ≡ length log
        → c.pending ≡ [] → c.transaction ≡ None → HasShown O log (main_line c) D
        → Run O (commits_in log) D }
{}

//! Laws on what follows from a world: each is the contract of a function that does nothing.
ghost use Rattle.std.specs.Prelude.{◌≡◌, ◌≢◌, ◌↔◌, ℕ, List, Some, slice_get, take};
ghost use Rattle.st_lists.specs.declared.lists.Client.{Client as Present};
ghost use Rattle.st_lists.specs.Lines.{Line, line_of};
ghost use Rattle.st_one_laws.specs.ClientActs.{IsActCut, IsClientAct, StandsOnReceived};
ghost use Rattle.st_script.specs.Header.{HeaderView};
ghost use Rattle.st_script.specs.Steps.{ActView, StepView};
ghost use Rattle.st_script.specs.Steps as step;
ghost use Rattle.st_marks.specs.Document.{Document};
ghost use Rattle.st_lists.specs.declared.lists.Entry.{Entry};
ghost use Rattle.st_script.specs.declared.answer.Answer.{Answer};
ghost use Rattle.st_lists.specs.declared.lists.WorldState.{WorldState};
ghost use Rattle.st_world.specs.World.{IsActOf, IsNext, opening_document};
ghost use Rattle.st_world_laws.specs.Worlds.{IsWorld};
ghost use Rattle.st_one_laws.specs.AlikeWorlds.{AreAlike, HasOneMeaning};

/// A step from worlds that are alike has one answer, and leads to worlds that are alike, where
/// one of the two is such that each revision names one commit.
pub fn alike_worlds_lead_alike()
    ensures { (h : HeaderView) (w u v x : WorldState) (s : StepView) (a b : Answer)
        → HasOneMeaning u → AreAlike w u → IsNext h w s v a → IsNext h u s x b → (a ≡ b)
        × AreAlike v x }
{}

/// From a world that steps lead to a step has one answer, and next worlds that are alike; and so
/// it has from lists that are like that world's.
pub fn one_next()
    ensures from_one { (h : HeaderView) (w v x : WorldState) (s : StepView) (a b : Answer)
        → IsWorld h w → IsNext h w s v a → IsNext h w s x b → (a ≡ b) × AreAlike v x }
    ensures from_alike { (h : HeaderView) (w u v x : WorldState) (s : StepView) (a b : Answer)
        → IsWorld h w → AreAlike u w → IsNext h u s v a → IsNext h w s x b
        → (a ≡ b) × AreAlike v x }
{}

/// An act of a client that is there is either one of the four that write to the log, or one of
/// that client alone, lifted to the world.
pub fn acts_are_lifted()
    ensures { (h : HeaderView) (w v : WorldState) (act : ActView) (i : ℕ) (c : Present) (k : ℕ)
        (l : Line) (a : Answer) → slice_get w.clients i ≡ Some c → (IsActOf h w act i c k l v a
        ↔ IsActCut h w act i c k l v a) }
{}

/// What a client does goes by the entries that it received, but for the receiving of the next
/// one: where no line of it stands on more entries, and so in each world that steps lead to.
pub fn acts_read_what_was_received()
    ensures of_lines { (O : Document) (history : ℕ) (log : List Entry) (act : ActView)
        (c d : Present) (k : ℕ) (l : Line) (a : Answer) → StandsOnReceived c
        → line_of c k ≡ Some l → act ≢ step.deliver → (IsClientAct O history log act c k l d a
        ↔ IsClientAct O history (take c.received log) act c k l d a) }
    ensures in_worlds { (h : HeaderView) (w : WorldState) (act : ActView) (i : ℕ) (c d : Present)
        (k : ℕ) (l : Line) (a : Answer) → IsWorld h w → slice_get w.clients i ≡ Some c
        → line_of c k ≡ Some l → act ≢ step.deliver
        → (IsClientAct (opening_document h) h.history w.log act c k l d a
        ↔ IsClientAct (opening_document h) h.history (take c.received w.log) act c k l d a) }
{}

//! The law on the way back over a step: the contract of a function that does nothing but call the law that it rests on.
ghost use Rattle.st_ids.specs.declared.names.Rev.{Rev};
ghost use Rattle.st_marks.specs.declared.intents.Intent.{Intent};
ghost use Rattle.st_marks.specs.declared.steps.Step.{Step};
ghost use Rattle.st_marks.specs.Back.{IsBack};
ghost use Rattle.st_marks.specs.Document.{Document};
ghost use Rattle.st_marks.specs.Extends.{IsExtendedBy};
ghost use Rattle.st_marks.specs.Step.{IsStep};
ghost use Rattle.st_normal.specs.Rules.{ObeysStepRules};

use st_heads::ways_lead_back;

/// Over each step in normal form there is a way back, under each schema and as a commit of each revision: the step leads from one
/// document to another that extends it, and there is the intent there that takes back what it did. So whoever reverts a step in
/// normal form has documents for it.
pub fn each_step_has_a_way_back()
    ensures { (S : Step) (rev under : Rev) → ObeysStepRules S
        → (D : Document) × (E : Document) × (B : Intent)
        × IsExtendedBy D E × IsStep D E S × IsBack D E rev under B }
{
    ways_lead_back();
}

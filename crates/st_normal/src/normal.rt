//! The test of normal form, and its refusal.
ghost use Rattle.std.specs.Prelude.{MatchResult};

/// The value isn't in normal form.
#[derive(Clone, Copy, Debug, PartialEq, Eq)]
pub struct NotNormal;

/// What is in normal form or isn't, by rules that look at nothing else.
pub trait Check {
    ghost ObeysRules: { Self → Type 0 };

    /// Refuses what isn't in normal form.
    fn check(&self) -> Result<(), NotNormal>
        ensures { MatchResult result (λ _. ObeysRules self.now) (λ _. ObeysRules self.now → ⊥) };
}

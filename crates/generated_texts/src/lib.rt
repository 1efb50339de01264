//! What the texts of a generated system are to those who read them.
#![tactic(auto)]

ghost use Rattle.std.specs.Prelude.{ℕ, ◌<◌, ◌≤◌};
ghost use Rattle.osek_values.specs.declared.limits.TheConstants.{MAX_TASKS};
ghost use Rattle.osek_vectors.specs.GeneratedTexts.{generated_texts};
ghost use Rattle.generated_texts.specs.Faultless.{TextsHaveNoFault};

/// A law: whatever the seed, the three texts of 1 to `MAX_TASKS` tasks have no fault. It does nothing.
pub fn generated_texts_have_no_fault()
    ensures { (seed n : ℕ) → 0 < n → n ≤ MAX_TASKS → TextsHaveNoFault (generated_texts seed n) }
{}

//! Laws of generated texts.
ghost use Rattle.std.specs.Prelude.{◌≡◌, ℕ, ◌+◌, ◌*◌, ◌<◌, ◌≤◌};
ghost use Rattle.osek_values.specs.declared.limits.TheConstants.{MAX_TASKS};
ghost use Rattle.osek_vectors.specs.{GeneratedTexts.{generated_texts}, LineCounts.{line_count}};

/// Each text has as many lines as the number of tasks says, whatever the seed.
pub fn a_seed_gives_no_other_number_of_lines()
    ensures oil { (seed n : ℕ) → 0 < n → n ≤ MAX_TASKS → line_count (generated_texts seed n).oil ≡ n + 8 }
    ensures code { (seed n : ℕ) → 0 < n → n ≤ MAX_TASKS → line_count (generated_texts seed n).code ≡ 12 * n + 1 }
    ensures events { (seed n : ℕ) → 0 < n → n ≤ MAX_TASKS → line_count (generated_texts seed n).events ≡ 1000 * n }
{}

//! Laws over the definitions.
ghost use Rattle.std.specs.Prelude.{◌≡◌, ℕ, List, Result};
ghost use Rattle.osek_values.specs.declared.refusal.Refusal.{Refusal};
ghost use Rattle.osek_standard.specs.declared.app.App.{App};
ghost use Rattle.oil_system.specs.declared.system.System.{System};
ghost use Rattle.oil_model.specs.Linkable.{IsLinkable};
ghost use Rattle.front_end.specs.{Texts.{DeclaresSystem}, Answers.{IsOilAnswer, IsCodeAnswer}};

/// A law: each OIL text declares a system that can be linked, or has a first fault; beside such a system each task code
/// text gives an application, or has a first fault; and none has another answer. It does nothing.
pub fn one_answer()
    ensures some_system { (text : List ℕ) → (answer : Result System Refusal) × IsOilAnswer answer text }
    ensures one_system { (text : List ℕ) (a b : Result System Refusal) → IsOilAnswer a text → IsOilAnswer b text → a ≡ b }
    ensures linkable { (text : List ℕ) (s : System) → DeclaresSystem text s → IsLinkable s }
    ensures some_app { (s : System) (text : List ℕ) → IsLinkable s → (answer : Result App Refusal) × IsCodeAnswer answer s text }
    ensures one_app { (s : System) (text : List ℕ) (a b : Result App Refusal) → IsCodeAnswer a s text → IsCodeAnswer b s text → a ≡ b }
{}

//! Each line has one outcome, and each input one output.
ghost use Rattle.std.specs.Prelude.{◌≡◌, ℕ, List, Bool};
ghost use Rattle.gix_config_value.specs.declared.program.RunError.{RunError};
ghost use Rattle.gix_config_value.specs.Answers.{Outcome, LineOutcome, Answers, AnswersLines, AgreeAfter};
ghost use Rattle.gix_config_value.specs.Answers.{IsBeginningOfAnswers};

use crate::laws::kinds::every_kind;

/// Each line has exactly one outcome: it is accepted with one text, refused, or of an unknown kind.
pub fn one_outcome()
    ensures some { (line : List ℕ) → (outcome : Outcome) × LineOutcome line outcome }
    ensures one { (line : List ℕ) (a b : Outcome) → LineOutcome line a → LineOutcome line b → a ≡ b }
{
    every_kind();
}

/// Each input has exactly one output, and fixes whether every line of it is accepted. Two runs that read the
/// same input and ended with the same error wrote the same if the error is `Read`; after another error one of
/// them may have written more.
pub fn one_output()
    ensures some { (input : List ℕ) → (output : List ℕ) × (ok : Bool) × Answers input output ok }
    ensures one { (input a b : List ℕ) (x y : Bool) → Answers input a x → Answers input b y
        → (a ≡ b) × (x ≡ y) }
    ensures failed { (e : RunError) (input a b : List ℕ)
        → IsBeginningOfAnswers input a → IsBeginningOfAnswers input b
        → AnswersLines e input a → AnswersLines e input b → AgreeAfter e a b }
{
    one_outcome();
}

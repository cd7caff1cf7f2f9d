//! Why a text gives no number.
ghost use Rattle.std.specs.Prelude.{◌≡◌, ℕ, List, Err};
ghost use Rattle.config_integer.specs.Integer.{IntegerFault};
ghost use Rattle.config_text.specs.declared.errors.Fault.{Fault};

/// A text that gives no number of the caller's type has only one fault.
pub fn one_refusal<T: TryFrom<i64>>()
    ensures { (text : List ℕ) (f g : Fault)
        → IntegerFault (λ z. (x : T.Error) × T.try_from_gives z (Err x)) text f
        → IntegerFault (λ z. (x : T.Error) × T.try_from_gives z (Err x)) text g → f ≡ g }
{}

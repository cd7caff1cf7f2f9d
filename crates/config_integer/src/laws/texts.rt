//! Each value has a text: the text that it is shown as, which is canonical and reads back.
ghost use Rattle.config_text.specs.Value.{IsTextOf};
ghost use Rattle.config_text.specs.Numerals.{IsInI64};
ghost use Rattle.config_integer.specs.declared.integer.Integer.{Integer};
ghost use Rattle.config_integer.specs.declared.amount.Amount.{Amount};
ghost use Rattle.config_integer.specs.declared.suffix.Suffix.{Suffix};
ghost use Rattle.config_integer.specs.Suffix.{SuffixText, CanonicalSuffix, suffix_shown};
ghost use Rattle.config_integer.specs.Integer.{IntegerText, CanonicalInteger, integer_shown};
ghost use Rattle.config_integer.specs.Amount.{AmountText, CanonicalAmount, amount_shown};

/// Every suffix is shown as its canonical text, which reads back to the suffix.
pub fn suffix_text()
    ensures { (s : Suffix) → IsTextOf SuffixText CanonicalSuffix s (suffix_shown s) }
{}

/// Every integer is shown as its canonical text, which reads back to the integer.
pub fn integer_text()
    ensures { (v : Integer) → IsInI64 v.value
        → IsTextOf IntegerText CanonicalInteger v (integer_shown v) }
{}

/// Every amount is shown as its canonical text, which reads back to the amount.
pub fn amount_text()
    ensures { (v : Amount) → IsInI64 v.0 → IsTextOf AmountText CanonicalAmount v (amount_shown v) }
{}

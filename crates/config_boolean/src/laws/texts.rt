//! Both booleans have a text: the text that a boolean is shown as, which is canonical and reads back.
ghost use Rattle.config_text.specs.Value.{IsTextOf};
ghost use Rattle.config_boolean.specs.declared.boolean.Boolean.{Boolean};
ghost use Rattle.config_boolean.specs.Boolean.{BooleanText, CanonicalBoolean, boolean_shown};

/// Each boolean is shown as its canonical text, which reads back to the boolean.
pub fn boolean_text()
    ensures { (b : Boolean) → IsTextOf BooleanText CanonicalBoolean b (boolean_shown b) }
{}

//! Laws of settings.
ghost use Rattle.std.specs.Prelude.{ℕ, List};
ghost use Rattle.std.specs.List.{AllZip};
ghost use Rattle.config_text.specs.Settings.{IsReplaced, SameAnswers, OneAnswer};

use crate::value::Value;

/// If some texts in a list of entries are replaced by canonical texts of the same values, each name keeps its
/// result. This is its value, whatever the default is, or the index of the refused entry and its text.
pub fn replaced_values<V: Value>()
    ensures { (es fs : List (List ℕ × List ℕ)) → AllZip (IsReplaced V.grammar V.canonical) es fs
        → SameAnswers V.grammar es fs }
{}

/// A name has at most one result: for each default one value, or one refusal, and never both.
pub fn one_answer<V: Value>()
    ensures { (es : List (List ℕ × List ℕ)) → OneAnswer V.grammar es }
{}

//! Laws about what the calls return and write: from the same input a call has one answer.
//!
//! An answer is the status and whatever the call writes over the same old contents. Two answers from the same
//! input are the same.
ghost use Rattle.std.specs.Prelude.{◌≡◌, ℕ, List, Some};
ghost use Rattle.config_text.specs.declared.errors.Fault.TheVariants as faults;
ghost use Rattle.gix_config_value.specs.Refusals.{OnlyFault};
ghost use Rattle.gix_config_value.specs.Suffix.{SuffixText, suffix_shown};
ghost use Rattle.gix_config_value.specs.Integer.{IntegerText, integer_shown};
ghost use Rattle.gix_config_value.specs.Amount.{AmountText, AmountFault};
ghost use Rattle.gix_config_value.specs.Boolean.{BooleanText, boolean_shown};
ghost use Rattle.gix_config_value.specs.Name.{NameText, name_shown};
ghost use Rattle.gix_config_value.specs.Attribute.{AttributeText};
ghost use Rattle.config_color.specs.Escape.{escape_sequence};
ghost use Rattle.gix_config_value.specs.Color.{ColorText, color_shown};
ghost use Rattle.gix_config_value_c.specs.declared.status.Status.TheVariants as statuses;
ghost use Rattle.gix_config_value_c.specs.declared.structs.GcvInteger.{GcvInteger};
ghost use Rattle.gix_config_value_c.specs.declared.structs.GcvName.{GcvName};
ghost use Rattle.gix_config_value_c.specs.declared.structs.GcvColor.{GcvColor};
ghost use Rattle.gix_config_value_c.specs.Answers.{HasOneResult, HasOneAnswer};
ghost use Rattle.gix_config_value_c.specs.Buffers.{PutsText};
ghost use Rattle.gix_config_value_c.specs.Colors.{ComposesInto, LaysOver, ReducesInto};
ghost use Rattle.gix_config_value_c.specs.Faults.{TellsFault};
ghost use Rattle.gix_config_value_c.specs.Numbers.{suffix_number, flag_number};
ghost use Rattle.gix_config_value_c.specs.Paths.{CutsMark, InterpolatesInto};
ghost use Rattle.gix_config_value_c.specs.Readers.{ReadsInto, Faults, NoFault};
ghost use Rattle.gix_config_value_c.specs.Structs.{integer_struct, name_struct, color_struct};
ghost use Rattle.gix_config_value_c.specs.Terminals.{TellsDepth};
ghost use Rattle.gix_config_value_c.specs.Texts.{NormalizesInto, ComparesInto};
ghost use Rattle.gix_config_value_c.specs.Values.{Shows, Multiplies};

use config_color::laws::colors::{one_composition, one_layering};
use config_color::laws::depths::{one_depth, one_reduction};

/// Each reader has one answer to a text: one value, or one fault.
pub fn readers()
    ensures suffixes { (t : List ℕ)
        → HasOneAnswer (ReadsInto (λ s. suffix_number (Some s)) SuffixText NoFault t) }
    ensures integers { (t : List ℕ)
        → HasOneAnswer (ReadsInto integer_struct IntegerText (Faults (OnlyFault faults.Integer)) t) }
    ensures amounts { (t : List ℕ)
        → HasOneAnswer (ReadsInto (λ v. v.0) AmountText (Faults AmountFault) t) }
    ensures booleans { (t : List ℕ)
        → HasOneAnswer (ReadsInto (λ v. flag_number v.0) BooleanText (Faults (OnlyFault faults.Boolean)) t) }
    ensures names { (t : List ℕ)
        → HasOneAnswer (ReadsInto name_struct NameText (Faults (OnlyFault faults.Color)) t) }
    ensures attributes { (t : List ℕ)
        → HasOneAnswer (ReadsInto (λ a. a.0) AttributeText (Faults (OnlyFault faults.Color)) t) }
    ensures colors { (t : List ℕ)
        → HasOneAnswer (ReadsInto color_struct ColorText (Faults (OnlyFault faults.Color)) t) }
{}

/// Each value is shown in one way. A text, such as that of an amount or of attributes, is put in one way.
pub fn shown()
    ensures texts { (text : List ℕ) → HasOneAnswer
        (λ buffer buffer' size size' status. PutsText text buffer buffer' size' status) }
    ensures suffixes { (n : ℕ)
        → HasOneAnswer (Shows (λ s. suffix_number (Some s)) suffix_shown statuses.BadSuffix n) }
    ensures integers { (c : GcvInteger)
        → HasOneAnswer (Shows integer_struct integer_shown statuses.BadSuffix c) }
    ensures booleans { (n : ℕ)
        → HasOneAnswer (Shows (λ v. flag_number v.0) boolean_shown statuses.BadFlag n) }
    ensures names { (c : GcvName) → HasOneAnswer (Shows name_struct name_shown statuses.BadName c) }
    ensures colors { (c : GcvColor) → HasOneAnswer (Shows color_struct color_shown statuses.BadName c) }
    ensures sequences { (c : GcvColor)
        → HasOneAnswer (Shows color_struct escape_sequence statuses.BadName c) }
{}

/// Each of these calls has one answer: normal forms, comparisons, two colors as one, reduced colors, depths,
/// products, the texts of faults, and paths. The answer to a path includes the buffer and the number of a
/// fault.
pub fn calls()
    ensures normalizes { (number : ℕ) (t : List ℕ) → HasOneAnswer (NormalizesInto number t) }
    ensures compares { (number : ℕ) (a b : List ℕ) → HasOneResult (ComparesInto number a b) }
    ensures composes { (a b : GcvColor) → HasOneResult (ComposesInto a b) }
    ensures lays { (a b : GcvColor) → HasOneResult (LaysOver a b) }
    ensures reduces { (c : GcvColor) (depth : ℕ) → HasOneResult (ReducesInto c depth) }
    ensures depths { (is_terminal : ℕ) (no_color term colorterm : ℕ × List ℕ)
        → HasOneResult (TellsDepth is_terminal no_color term colorterm) }
    ensures multiplies { (c : GcvInteger) → HasOneResult (Multiplies c) }
    ensures faults { (number : ℕ) → HasOneAnswer (TellsFault number) }
    ensures interpolates { (t : List ℕ) (install_dir home passwd : ℕ × List ℕ) → HasOneAnswer
        (λ (out out' : List ℕ × ℕ) size size' status. InterpolatesInto t install_dir home passwd
        out.0 out'.0 size size' out.1 out'.1 status) }
{
    one_composition();
    one_layering();
    one_reduction();
    one_depth();
}

/// The mark of an optional path is cut off in one way.
pub fn marks()
    ensures { (text : List ℕ) (optional other start index : ℕ) → CutsMark text optional start
        → CutsMark text other index → (optional ≡ other) × (start ≡ index) }
{}

//! The headline of settings has one answer, and each kind has one reading. What `==` and `clone` return for the
//! types of the callers.
ghost use Rattle.std.specs.Prelude.{◌≡◌, ℕ, List, Option, Result};
ghost use Rattle.config_text.specs.Orders.{Equates, IsCopied};
ghost use Rattle.config_text.specs.Refusals.{OnlyFault};
ghost use Rattle.config_text.specs.declared.errors.Fault.TheVariants as faults;
ghost use Rattle.config_file.specs.Settings.{HasOneReading};
ghost use Rattle.config_file.specs.Walk.{HasOneContent};
ghost use Rattle.config_file.specs.declared.walk.Known.{Known};
ghost use Rattle.gix_config_value.specs.Integer.{IntegerText};
ghost use Rattle.gix_config_value.specs.Amount.{AmountText, AmountFault};
ghost use Rattle.gix_config_value.specs.Boolean.{BooleanText};
ghost use Rattle.gix_config_value.specs.Name.{NameText};
ghost use Rattle.gix_config_value.specs.Attribute.{AttributeText};
ghost use Rattle.gix_config_value.specs.Color.{ColorText};
ghost use Rattle.uses.specs.SettingHeadline.{HasMemory, IsSameFound, SettingHeadline};
ghost use Rattle.uses.specs.declared.setting_headline.FirstFile.{FirstFile as first_file};
ghost use Rattle.uses.specs.declared.setting_headline.NoValue.{NoValue as no_value};

use crate::push_default::PushDefault;
use crate::repository::File;
use crate::setting_headline::FirstFile;
use config_file::Files;
use gix_config_value::canonical::TryRead;

/// If the file of each name has at most one content, a key has one answer in the first files and in what they
/// include, unless memory is refused: its value, no value, the refusal of its last entry or of the key, or the place
/// where Git stops. The kind has to have one reading, as those of [`one_reading`] have.
pub fn one_answer<'t, S: Files<'t>, V: TryRead>()
    ensures { (files : S) (known : Known) (first : List first_file) (key : List ℕ)
        (a b : Result (Option V) no_value) → HasOneContent (S.contents files) → HasOneReading V.grammar V.refusal
        → HasMemory a → HasMemory b
        → SettingHeadline (S.contents files) known first key V.grammar V.refusal a
        → SettingHeadline (S.contents files) known first key V.grammar V.refusal b → IsSameFound a b }
{}

/// Each kind that is read from settings gives a text at most one value, and refuses it with at most one fault. A
/// suffix alone is refused without a fault, and no setting is read as one.
pub fn one_reading()
    ensures integers { HasOneReading IntegerText (OnlyFault faults.Integer) }
    ensures amounts { HasOneReading AmountText AmountFault }
    ensures booleans { HasOneReading BooleanText (OnlyFault faults.Boolean) }
    ensures names { HasOneReading NameText (OnlyFault faults.Color) }
    ensures attributes { HasOneReading AttributeText (OnlyFault faults.Color) }
    ensures colors { HasOneReading ColorText (OnlyFault faults.Color) }
{}

/// Values of `push.default` are equal exactly if they are the same.
pub fn push_defaults()
    ensures equality { Equates (◌≡◌) ⟦<PushDefault as PartialEq>⟧.eq }
    ensures clones { IsCopied ⟦<PushDefault as Clone>⟧.is_clone ⟦<PushDefault as Clone>⟧.is_infallible }
{}

/// A clone of a file is the same file, and never fails.
pub fn files()
    ensures files { IsCopied ⟦<File<'static> as Clone>⟧.is_clone ⟦<File<'static> as Clone>⟧.is_infallible }
    ensures first { IsCopied ⟦<FirstFile<'static> as Clone>⟧.is_clone
        ⟦<FirstFile<'static> as Clone>⟧.is_infallible }
{}

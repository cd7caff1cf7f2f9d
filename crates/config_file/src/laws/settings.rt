//! Laws of settings: what is added to them, and what is got from them.
ghost use Rattle.std.specs.Prelude.{ℕ, List, [], Option, Result, Err};
ghost use Rattle.std.specs.List.{AllZip};
ghost use Rattle.config_file.specs.Walk.{HasOneContent};
ghost use Rattle.config_file.specs.Settings.{AddsWalk, HasMemory, IsSameSetting, HasSameFront, IsSameEnd};
ghost use Rattle.config_file.specs.Settings.{AddsFile, AreListed, Gets, HasOneReading, IsSameAnswer};
ghost use Rattle.config_file.specs.declared.settings.AddError.{AddError};
ghost use Rattle.config_file.specs.declared.settings.AddError.TheVariants as error;
ghost use Rattle.std.specs.declared.alloc.AllocError.{AllocError};
ghost use Rattle.config_file.specs.declared.settings.GetError.{GetError};
ghost use Rattle.config_file.specs.declared.settings.Setting.{Setting};
ghost use Rattle.config_file.specs.declared.walk.Known.{Known};
ghost use Rattle.config_file.specs.declared.walk.FilePlace.{FilePlace};

use crate::files::Files;
use config_text::readers::TryRead;

/// If each name has at most one content, then two additions of a text to the same settings give the same
/// settings, and stop at the same place. An addition that lacks memory gives a beginning of these settings.
pub fn one_addition<'t, S: Files<'t>>()
    ensures whole { (files : S) (known : Known) (place : FilePlace) (text : List ℕ) (old a b : List Setting)
        (r s : Result (Unit {0}) AddError) → HasOneContent (S.contents files) → HasMemory r → HasMemory s
        → AddsWalk (S.contents files) known place text old a r
        → AddsWalk (S.contents files) known place text old b s
        → AllZip IsSameSetting a b × IsSameEnd r s }
    ensures cut { (files : S) (known : Known) (place : FilePlace) (text : List ℕ) (old a b : List Setting)
        (e : AllocError) (s : Result (Unit {0}) AddError) → HasOneContent (S.contents files) → HasMemory s
        → AddsWalk (S.contents files) known place text old a (Err (error.Memory e))
        → AddsWalk (S.contents files) known place text old b s → HasSameFront a b }
{}

/// Git lists each setting of a file under a key, so that settings that are listed stay so as those of a file are added,
/// all or some of them. New settings have none that is not listed.
pub fn added_are_listed()
    ensures none { AreListed [] }
    ensures file { (file text : List ℕ) (old new : List Setting) (r : Result (Unit {0}) AddError)
        → AddsFile file text old new r → AreListed old → AreListed new }
{}

/// So they do as the settings of a file are added with those of the files that it includes.
pub fn walked_are_listed<'t, S: Files<'t>>()
    ensures { (files : S) (known : Known) (place : FilePlace) (text : List ℕ) (old new : List Setting)
        (r : Result (Unit {0}) AddError) → AddsWalk (S.contents files) known place text old new r
        → AreListed old → AreListed new }
{}

/// If each text has at most one value, and is refused with at most one fault, then settings have one answer
/// for a key: a value, no value, or a refusal.
pub fn one_get<V: TryRead>()
    ensures { (settings : List Setting) (key : List ℕ) (a b : Result (Option V) GetError)
        → HasOneReading V.grammar V.refusal → Gets V.grammar V.refusal settings key a
        → Gets V.grammar V.refusal settings key b → IsSameAnswer a b }
{}

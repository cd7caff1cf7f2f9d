//! Laws of configuration files, in addition to the contracts of calls.
ghost use Rattle.std.specs.Prelude.{◌≡◌, ◌↔◌, ℕ, List, Option, Result, MatchResult, map, codes};
ghost use Rattle.std.specs.List.{All};
ghost use Rattle.config_file.specs.declared.errors.FileError.{FileError};
ghost use Rattle.config_file.specs.declared.key.KeyError.{KeyError};
ghost use Rattle.config_file.specs.File.{Entry, IsFile};
ghost use Rattle.config_file.specs.Value.{Ending, SpellsValue, escape};
ghost use Rattle.config_file.specs.Listing.{IsListed};
ghost use Rattle.config_file.specs.Key.{Key, HasKey, IsCut, IsKey, RefusesKey, listed};

pub mod equality;
pub mod settings;
pub mod walks;

/// A text has at most one reading: all derivations give the same entries, and the same error if the text is
/// refused. So no text is both accepted and refused.
pub fn one_reading()
    ensures { (text : List ℕ) (a b : List Entry) (e f : Option FileError) → IsFile text a e → IsFile text b f
        → (a ≡ b) × (e ≡ f) }
{}

/// Each text has a reading: it is a configuration file, or it is refused on a line.
pub fn each_is_read()
    ensures { (text : List ℕ) → (entries : List Entry) × (error : Option FileError) × IsFile text entries error }
{}

/// Git lists each entry of a file under a key, and the value of an entry, if it has one, spells a text. That
/// is also true of the entries before the line on which a text is refused.
pub fn each_is_listed()
    ensures keys { (text : List ℕ) (entries : List Entry) (error : Option FileError) → IsFile text entries error
        → All (λ entry. (key : List ℕ) × IsListed entry.section entry.key key) entries }
    ensures values { (text : List ℕ) (entries : List Entry) (error : Option FileError) → IsFile text entries error
        → All (λ entry. (raw : List ℕ) → entry.value ≡ Some raw
        → (spelled : List ℕ) × (ending : Ending) × SpellsValue raw spelled ending) entries }
{}

/// The bytes of a value spell at most one text.
pub fn one_value()
    ensures { (raw s t : List ℕ) (e f : Ending) → SpellsValue raw s e → SpellsValue raw t f → s ≡ t }
{}

/// Each text is a key, or Git refuses it, in exactly one way.
pub fn one_key()
    ensures each { (text : List ℕ)
        → (result : Result Key KeyError) × MatchResult result (IsKey text) (RefusesKey text) }
    ensures one { (text : List ℕ) (a b : Result Key KeyError) → MatchResult a (IsKey text) (RefusesKey text)
        → MatchResult b (IsKey text) (RefusesKey text) → a ≡ b }
{}

/// An entry of a file has a key exactly if Git lists the entry under that key. This is true of each key that
/// a text is cut into, also if Git refuses the text.
pub fn keys_of_entries()
    ensures { (text written : List ℕ) (entries : List Entry) (error : Option FileError) (key : Key)
        → IsFile text entries error → IsCut written key
        → All (λ entry. HasKey entry key ↔ IsListed entry.section entry.key (listed key)) entries }
{}

/// The escapes of values are those of git-config(1): `\n`, `\t` and `\b` are LF, TAB and backspace, and `\"`
/// and `\\` are the byte after the backslash.
pub fn escapes()
    ensures { map escape (codes "ntb\"\\") ≡ map (λ b. Some b) (codes "\n\t\u{8}\"\\") }
{}

//! Which names have a text, and what a word means.
ghost use Rattle.std.specs.Prelude.{◌≡◌, ◌≤◌, ℕ, List, length};
ghost use Rattle.config_text.specs.Value.{IsTextOf};
ghost use Rattle.config_word.specs.declared.attribute.Attribute.{Attribute};
ghost use Rattle.config_word.specs.declared.item.Item.{Item};
ghost use Rattle.config_word.specs.Attribute.{AttributeText, attribute_shown};
ghost use Rattle.config_word.specs.declared.attribute.TheConstants.{LONGEST_SET};
ghost use Rattle.config_word.specs.declared.name.TheConstants.{LONGEST_NAME};
ghost use Rattle.config_word.specs.Item.{ItemText};
ghost use Rattle.config_word.specs.Name.{NameText, CanonicalName, NameFits, name_shown};

use crate::name::Name;

/// Every name has a text: the one that it is shown as, which is canonical and reads back.
pub fn name_text()
    ensures shown { (n : Name) → NameFits n → IsTextOf NameText CanonicalName n (name_shown n) }
    ensures fits { (t : List ℕ) (n : Name) → NameText t n → NameFits n }
{}

/// Each number of a name is a byte. A proof knows this about a name that is passed by value. For a name
/// inside another value, the code calls this function.
pub fn numbers_fit(name: Name)
    ensures { NameFits name }
{}

/// A word means only one item, and no text is both a name and an attribute.
pub fn one_item()
    ensures one { (t : List ℕ) (i j : Item) → ItemText t i → ItemText t j → i ≡ j }
    ensures apart { (t : List ℕ) (n : Name) (a : Attribute) → NameText t n → ¬ (AttributeText t a) }
{}

/// Each name is shown in at most `LONGEST_NAME` bytes, and each set of attributes in at most `LONGEST_SET`. One
/// of each has as many.
pub fn longest()
    ensures names { (n : Name) → NameFits n → length (name_shown n) ≤ LONGEST_NAME }
    ensures name { (n : Name) × NameFits n × (length (name_shown n) ≡ LONGEST_NAME) }
    ensures sets { (bits : ℕ) → length (attribute_shown bits) ≤ LONGEST_SET }
    ensures set { (bits : ℕ) × (length (attribute_shown bits) ≡ LONGEST_SET) }
{}

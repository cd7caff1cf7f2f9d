//! Laws of sets of attributes.
ghost use Rattle.std.specs.Prelude.{◌≡◌, ◌≢◌, ◌^◌, ◌↔◌, ℕ};
ghost use Rattle.std.specs.Int.{bit_at};
ghost use Rattle.config_word.specs.declared.attribute.Attribute.{Attribute};
ghost use Rattle.config_word.specs.Attribute.{AreOpposite, AttributeText, IsKnownBit, attribute_shown};
ghost use Rattle.config_text.specs.Value.{HasText, IsRefused};

/// A set has a text exactly if only one bit is set and that bit has a constant.
pub fn one_known_bit()
    ensures { (a : Attribute)
        → (HasText AttributeText a) ↔ ((bit : ℕ) × IsKnownBit bit × (a.0 ≡ 2 ^ bit)) }
{}

/// If two or more bits that have constants are set, the shown text is not an attribute text.
pub fn several()
    ensures { (a : Attribute) (i j : ℕ) → i ≢ j → IsKnownBit i → IsKnownBit j
        → bit_at a.0 i ≡ 1 → bit_at a.0 j ≡ 1 → IsRefused AttributeText (attribute_shown a.0) }
{}

/// If one attribute is the opposite of another, the other is its opposite too.
pub fn opposites()
    ensures { (bit other : ℕ) → AreOpposite bit other → AreOpposite other bit }
{}

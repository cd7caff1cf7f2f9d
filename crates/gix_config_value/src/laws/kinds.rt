//! The list of kinds is complete, and no two kinds have the same name.
ghost use Rattle.std.specs.Prelude.{◌≡◌, Contains};
ghost use Rattle.gix_config_value.specs.Kinds.{kind_name};
ghost use Rattle.gix_config_value.specs.declared.kind.Kind as kind;
ghost use Rattle.gix_config_value.specs.declared.kind.TheConstants.Kind.{ALL};

/// Each kind is in `Kind::ALL`, and no two kinds have the same name, so a name tells its kind.
pub fn every_kind()
    ensures every { (k : kind.Kind) → Contains ALL k }
    ensures one_name { (k l : kind.Kind) → kind_name k ≡ kind_name l → k ≡ l }
{}

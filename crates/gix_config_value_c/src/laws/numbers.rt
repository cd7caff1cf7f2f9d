//! Laws about the numbers that represent values in C.
ghost use Rattle.std.specs.Prelude.{◌≡◌, ◌≢◌, Some};
ghost use Rattle.config_text.specs.Faults.{fault_text};
ghost use Rattle.config_text.specs.declared.errors.Fault.{Fault};
ghost use Rattle.config_path.specs.Interpolation.{path_error_text};
ghost use Rattle.config_path.specs.declared.interpolate.Error.{Error};
ghost use Rattle.config_file.specs.Errors.{why_number};
ghost use Rattle.config_file.specs.declared.errors.Why.{Why};
ghost use Rattle.gix_config_value_c.specs.declared.status.Status.{Status};
ghost use Rattle.gix_config_value_c.specs.Answers.{TellsApart};
ghost use Rattle.gix_config_value_c.specs.Numbers.{status_number, kind_number, suffix_number, flag_number};
ghost use Rattle.gix_config_value_c.specs.Numbers.{role_number, depth_number, fault_number};
ghost use Rattle.gix_config_value_c.specs.Faults.{place_number, path_fault_number, numbered_text};

/// No two statuses, roles, kinds, suffixes, depths or truth values have the same number, and no status has that of a
/// reason for which Git stops.
pub fn numbers()
    ensures statuses { TellsApart status_number }
    ensures roles { TellsApart role_number }
    ensures kinds { TellsApart kind_number }
    ensures suffixes { TellsApart suffix_number }
    ensures depths { TellsApart depth_number }
    ensures flags { TellsApart flag_number }
    ensures reasons { (status : Status) (why : Why) → status_number status ≢ why_number why }
{}

/// No two faults of texts have the same number, and no two places in a path have. Faults of paths with one
/// number have the same text, and no fault of a path has the number of a fault of a text.
pub fn fault_numbers()
    ensures faults { TellsApart fault_number }
    ensures places { TellsApart place_number }
    ensures paths { (e f : Error) → path_fault_number e ≡ path_fault_number f
        → path_error_text e ≡ path_error_text f }
    ensures apart { (f : Fault) (e : Error) → fault_number f ≢ path_fault_number e }
{}

/// The text with a fault's number is the text of that fault. Out of memory has the number 0, and so no text.
pub fn fault_texts()
    ensures texts { (f : Fault) → numbered_text (fault_number f) ≡ Some (fault_text f) }
    ensures paths { (e : Error) → path_fault_number e ≢ 0
        → numbered_text (path_fault_number e) ≡ Some (path_error_text e) }
{}

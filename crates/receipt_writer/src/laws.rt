// Laws over the definitions alone.
ghost use Rattle.std.specs.Prelude.{◌≡◌, ℕ, List, Option};
ghost use Rattle.package_attrs.specs.declared.name.PackageName.{PackageName};
ghost use Rattle.config_table.specs.State.{State, state_with};
ghost use Rattle.config_table.specs.Stored.{Stored};
ghost use Rattle.module_record.specs.declared.module.Module.{Module};
ghost use Rattle.receipt_writer.specs.Answers.{error_text};

/// A law: an error tells nothing of the images that are installed. So it is the same where their octets
/// stand in the state in place of where they are kept (`octets`), and where a number, as their length,
/// stands in place of their octets (`numbers`).
pub fn errors_see_no_image()
    ensures octets { (octets_of : Stored → List ℕ) (m : Module) (state : State Stored) (number : ℕ)
        (name : Option PackageName)
        → error_text m (state_with octets_of state) number name ≡ error_text m state number name }
    ensures numbers { (number_of : List ℕ → ℕ) (m : Module) (state : State (List ℕ)) (number : ℕ)
        (name : Option PackageName)
        → error_text m (state_with number_of state) number name ≡ error_text m state number name }
{}

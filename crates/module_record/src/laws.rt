// Laws of the definitions, which no call computes.
ghost use Rattle.std.specs.Prelude.{◌≡◌, ◌++◌, ◌≤◌, ℕ, List, Some, length};
ghost use Rattle.lms_sign.specs.declared.key.SignKey.{SignKey};
ghost use Rattle.lms_sign.specs.PublicKeys.{IsSignKey};
ghost use Rattle.module_record.specs.KeyRecord.{key_record_text, BeginsWithKeyRecord};
ghost use Rattle.module_record.specs.ModuleRecord.{module_text, IsModule, HasLimits, HasShortSubjects};
ghost use Rattle.module_record.specs.ModuleRecord.{BeginsWithModuleRecord};
ghost use Rattle.module_record.specs.Reading.{view, key_record_at};
ghost use Rattle.module_record.specs.declared.module.Module.{Module};

/// A law: no octets begin with the records of two keys, a key record is read as its key whatever
/// follows, and it has 65 octets.
pub fn one_key_record_each()
    ensures unique { (k l : SignKey) (after_k after_l : List ℕ) → IsSignKey k → IsSignKey l
        → key_record_text k ++ after_k ≡ key_record_text l ++ after_l
        → (k ≡ l) × (after_k ≡ after_l) }
    ensures read { (key : SignKey) (rest : List ℕ) → IsSignKey key
        → key_record_at (key_record_text key ++ rest) ≡ Some (view key, rest) }
    ensures size { (key : SignKey) → IsSignKey key → length (key_record_text key) ≡ 65 }
{}

/// A law: no octets begin with the records of two modules.
pub fn one_module_record_each()
    ensures unique { (m n : Module) (after_m after_n : List ℕ) → IsModule m → IsModule n
        → module_text m ++ after_m ≡ module_text n ++ after_n
        → (m ≡ n) × (after_m ≡ after_n) }
{}

/// A law: no octets begin with the record of a module and with that of a key.
pub fn records_tell_their_kind()
    ensures { (octets : List ℕ) (m : Module) (key : SignKey) → BeginsWithModuleRecord octets m
        → ¬ BeginsWithKeyRecord octets key }
{}

/// A law: a module that is within its limits, and whose anchors' subjects are short, has a record,
/// of 65,536 octets at most.
pub fn short_modules_have_a_record()
    ensures valid { (m : Module) → HasLimits m → HasShortSubjects m → IsModule m }
    ensures size { (m : Module) → HasLimits m → HasShortSubjects m
        → length (module_text m) ≤ 65536 }
{}

//! Laws over the definitions, which no code needs to run.
ghost use Rattle.std.specs.Prelude.{◌≡◌, List};
ghost use Rattle.psu_settings.specs.Settings.{AreSettings, bytes_of};
ghost use Rattle.psu_settings.specs.declared.output_settings.OutputSettings.{OutputSettings as Each};

/// Settings with the same bytes are equal, so a register stores all of them.
pub fn bytes_determine_settings()
    ensures { (a b : List Each) → AreSettings a → AreSettings b → bytes_of a ≡ bytes_of b → a ≡ b }
{}

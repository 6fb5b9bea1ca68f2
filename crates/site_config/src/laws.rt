ghost use Rattle.std.specs.Prelude.{◌≡◌, ℕ, List};
ghost use Rattle.site_config.specs.declared.fault.SiteFault.{SiteFault};
ghost use Rattle.site_config.specs.SiteFile.{SiteFileRecord, IsSiteFile, IsRefused};

/// Bytes are one site file at most, have one first fault at most, and never both.
pub fn one_meaning()
    ensures file { (bytes : List ℕ) (a b : SiteFileRecord) → IsSiteFile bytes a → IsSiteFile bytes b → a ≡ b }
    ensures fault { (bytes : List ℕ) (f g : SiteFault) → IsRefused bytes f → IsRefused bytes g → f ≡ g }
    ensures not_both { (bytes : List ℕ) (file : SiteFileRecord) (fault : SiteFault) → IsSiteFile bytes file
        → IsRefused bytes fault → ⊥ }
{}

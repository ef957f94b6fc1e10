//! The law of all formats: one spelling for a board in each version.
ghost use Rattle.std.specs.Prelude.{◌≡◌, ◌++◌, List, ℕ};
ghost use Rattle.mpx_board.specs.Parts.{PartsView};
ghost use Rattle.mpx_format.specs.declared.versions.Version.{Version};
ghost use Rattle.mpx_format.specs.Decoding.{Spells};

/// No spelling begins another, of whichever versions they are, and each board has one at most in each version.
pub fn one_spelling()
    ensures prefix { (version other : Version) (a b rest : List ℕ) (v w : PartsView) → Spells version a v → Spells other b w → a ++ rest ≡ b → (a ≡ b) × (version ≡ other) × (v ≡ w) }
    ensures value { (version : Version) (a b : List ℕ) (v : PartsView) → Spells version a v → Spells version b v → a ≡ b }
{}

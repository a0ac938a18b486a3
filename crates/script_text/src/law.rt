// Laws of texts: each text has one answer, and the parts of a script are in range.

ghost use Rattle.std.specs.Prelude.{◌≡◌, ℕ, List, Option};
ghost use Rattle.std.specs.List.{AllByRecursion};
ghost use Rattle.script_text.specs.Script.{IsFirstBadLine, IsInRange, IsScript};
ghost use Rattle.script_text.specs.Manifest.{IsManifest, IsFirstBadManifestLine};
ghost use Rattle.script_text.specs.declared.part.Part.{Part};
ghost use Rattle.script_text.specs.ManifestLines.{HasNoVolume, IsGivenLine, IsListedManifest};
ghost use Rattle.script_text.specs.declared.manifest.Manifest.{Manifest};
ghost use Rattle.script_text.specs.declared.manifest_line.ManifestLine.{ManifestLine};

/// The parts of a script are in range: callers are from 1 to 16, what they give to keep are bytes, workers are 8 at most, and
/// a time is below 2^64.
pub fn parts_are_in_range()
    ensures { (text : List ℕ) → (parts : List Part) → IsScript text parts → AllByRecursion IsInRange parts }
{}

/// A text is one script.
pub fn one_script()
    ensures { (text : List ℕ) → (these those : List Part) → IsScript text these → IsScript text those → these ≡ those }
{}

/// A script has no first bad line.
pub fn script_has_no_bad_line()
    ensures { (text : List ℕ) → (parts : List Part) → (number : ℕ) → IsScript text parts → IsFirstBadLine text number → ⊥ }
{}

/// A text has one first bad line as a script.
pub fn one_bad_line()
    ensures { (text : List ℕ) → (this that : ℕ) → IsFirstBadLine text this → IsFirstBadLine text that → this ≡ that }
{}

/// A text is one manifest.
pub fn one_manifest()
    ensures { (text : List ℕ) → (this that : Manifest) → IsManifest text this → IsManifest text that → this ≡ that }
{}

/// A manifest has no first bad line.
pub fn manifest_has_no_bad_line()
    ensures { (text : List ℕ) → (m : Manifest) → (number : ℕ) → IsManifest text m → IsFirstBadManifestLine text number → ⊥ }
{}

/// A text has one first bad line as a manifest.
pub fn one_bad_manifest_line()
    ensures { (text : List ℕ) → (this that : ℕ) → IsFirstBadManifestLine text this → IsFirstBadManifestLine text that → this ≡ that }
{}

/// A manifest is listed in one way, and a text without a geometry isn't listed.
pub fn one_listing()
    ensures lines { (text : List ℕ) → (this that : Manifest) → (these those : List ManifestLine) → (bad other : Option ℕ) → IsListedManifest text this these bad → IsListedManifest text that those other
        → (this ≡ that) × (these ≡ those) × (bad ≡ other) }
    ensures none { (text : List ℕ) → (volume : Manifest) → (lines : List ManifestLine) → (bad : Option ℕ) → IsListedManifest text volume lines bad → HasNoVolume text → ⊥ }
{}

/// What the lines of a manifest give to keep is bytes, and no file has too many.
pub fn manifest_lines_are_given()
    ensures { (text : List ℕ) → (volume : Manifest) → (lines : List ManifestLine) → (bad : Option ℕ) → IsListedManifest text volume lines bad → AllByRecursion IsGivenLine lines }
{}

//! What holds of each sample.

ghost use Rattle.std.specs.Prelude.{◌≤◌, ℕ};
ghost use Rattle.redl_sample.specs.Packages.{package_text, revisions};
ghost use Rattle.redl_sound.specs.Sound.{HasRevisions, HasSoundPackage};

/// The text of each sample is that of a sound package, within the limits of depth and of nodes.
pub fn samples_are_packages()
    ensures { (number : ℕ) → number ≤ 20000 → HasSoundPackage (package_text number) }
{}

/// Each sample has as many revisions as its formula says: nine for each turn of eight blocks, and those of the last blocks.
pub fn samples_have_their_revisions()
    ensures { (number : ℕ) → number ≤ 20000 → HasRevisions (package_text number) (revisions number) }
{}

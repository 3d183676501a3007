//! Laws of paths and boundaries that hold for every source of words.

ghost use Rattle.std.specs.Prelude.{◌≡◌};
ghost use Rattle.viterbi.specs.Rivals.Boundaries.{HasBoundariesOrDiffers, NeverBoth};
ghost use Rattle.viterbi.specs.declared.rivals.rival_path.TheConstants.{STEPS_MAX};

/// Proves that a path past the position of a word has either a word with its boundaries or one that
/// replaces it, and never both.
pub fn same_boundaries_or_other_words()
    ensures either { HasBoundariesOrDiffers }
    ensures never_both { NeverBoth }
{}

/// Proves the value of `STEPS_MAX`, so that definitions that name it are known to mean 32.
pub fn steps_max()
    ensures { STEPS_MAX ≡ 32 }
{}

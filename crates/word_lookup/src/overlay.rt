//! Checks whether user dictionaries fit a system dictionary.

ghost use Rattle.std.specs.Prelude.{◌≡◌, List, ◌∷◌, map, Some, OnOk, IfErr};
ghost use Rattle.std.specs.List.{AllByRecursion};
ghost use Rattle.image_format.specs.ImageMeaning.{image_tables};
ghost use Rattle.mj_model.specs.Overlays.{first_user_fault};
ghost use Rattle.mj_model.specs.Tables.{Tables};
ghost use Rattle.word_lookup.specs.Fitting.{IsUserOf};

use dict_image::Dict;
use mj_model::{MatrixSizes, OverlayFault};

/// Checks that all of `users` are user dictionaries for a connection matrix of these sizes.
///
/// Returns `NotUser` or `OtherSizes` with the index of the first one that isn't.
pub fn check_users(users: &[Dict], sizes: MatrixSizes) -> Result<(), OverlayFault>
    ensures accepted { OnOk result (AllByRecursion (IsUserOf sizes) (map image_tables users.now)) }
    ensures rejected { IfErr result (λ fault.
        first_user_fault sizes 0 (map image_tables users.now) ≡ Some fault) }
{
    for (i, user) in users.iter().enumerate() {
        check_user(user, i, sizes)?;
    }
    Ok(())
}

/// Checks that user dictionary `i` fits a connection matrix of these sizes.
fn check_user(user: &Dict, i: usize, sizes: MatrixSizes) -> Result<(), OverlayFault>
    ensures accepted { OnOk result (IsUserOf sizes (image_tables user.now)) }
    ensures rejected { IfErr result (λ fault. (others : List Tables)
        → first_user_fault sizes i (image_tables user.now ∷ others) ≡ Some fault) }
{
    if !user.is_user() {
        return Err(OverlayFault::NotUser(i));
    }
    let MatrixSizes { right, left } = user.matrix_sizes();
    if right != sizes.right || left != sizes.left {
        return Err(OverlayFault::OtherSizes(i));
    }
    Ok(())
}

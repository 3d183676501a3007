//! Access to the section of connection costs.
ghost use Rattle.std.specs.Prelude.{◌≡◌, ◌<◌};
ghost use Rattle.image_format.specs.ImageSections.{AreCosts, stored_cost};

use image_format::i16_at;
use mj_model::MatrixSizes;

/// Returns the connection cost of a right id and a left id, in a table of these sizes.
pub(crate) fn cost_at(costs: &[u8], sizes: MatrixSizes, right: u32, left: u32) -> i16
    requires costs { AreCosts sizes costs.now }
    requires right { right < sizes.right }
    requires left { left < sizes.left }
    ensures { result ≡ stored_cost sizes costs.now right left }
{
    i16_at(
        costs,
        2 * (right as usize * sizes.left as usize + left as usize),
    )
}

//! Laws of the cells of a double array.

ghost use Rattle.double_array.specs.CellMoves.{MovesKeepTheMap};

/// Moving the children of a state to another base keeps the map, the invariants of the cells, and
/// that every used cell lies on the walk of a key.
pub fn move_keeps_the_map()
    ensures { MovesKeepTheMap }
{}

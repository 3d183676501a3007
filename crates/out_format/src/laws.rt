//! Laws of formats, which hold for all texts.

ghost use Rattle.std.specs.Prelude.{◌≡◌};
ghost use Rattle.out_format.specs.declared.items.TheConstants.{ITEMS};
ghost use Rattle.out_format.specs.Formats.{HasOneFormat};
ghost use Rattle.out_format.specs.ItemTable.{listed_items};
ghost use Rattle.out_format.specs.PrintedPaths.{HasOneText};

/// The table of items, row by row: letters, item, and the parts that may use it. A definition that
/// cites the table means these rows.
pub fn item_table()
    ensures { ITEMS ≡ listed_items }
{}

/// Each four texts parse in exactly one way: as one format, or with one first error.
pub fn one_format()
    ensures { HasOneFormat }
{}

/// Each path of a line prints exactly one text in a format.
pub fn one_text()
    ensures { HasOneText }
{}

//! Prints the items of a part.

ghost use Rattle.std.specs.Prelude.{◌≡◌, ℕ, List, take, vec_len, OnOk};
ghost use Rattle.mj_model.specs.declared.format_item.FormatItem.{FormatItem};
ghost use Rattle.mj_model.specs.Lists.{GrowsBy};
ghost use Rattle.out_format.specs.PrintedPaths.{PrintsPieces};
ghost use Rattle.out_format.specs.Pieces.{pieces_in, pieces_of};

use crate::appending::append_run;
use crate::part::Part;
use mj_model::FormatItem;
use std::alloc::AllocError;

/// Something whose items can be printed: a word in its path, or a line as a whole.
pub trait ItemPrinter {
    /// The precondition of printing: the data of the word or line are consistent.
    ghost is_printable: { Self → Type 0 };

    /// The text that an item prints.
    ghost prints: { Self → FormatItem → List ℕ → Type 0 };

    /// Appends the text of `item`. On an error a part of it may remain in `out`.
    fn append_item(&self, item: FormatItem, out: &mut Vec<u8>) -> Result<(), AllocError>
        requires { is_printable self.now }
        ensures appended { OnOk result
            (GrowsBy (prints self.now item) out.old.items out.new.items) }
        ensures unchanged { take (vec_len out.old) out.new.items ≡ out.old.items };
}

/// Appends the text of `parts`, with the items of `subject`.
pub fn append_parts<S: ItemPrinter>(
    subject: &S,
    parts: &[Part],
    out: &mut Vec<u8>,
) -> Result<(), AllocError>
    requires { S.is_printable subject.now }
    ensures appended { OnOk result (GrowsBy (PrintsPieces (S.prints subject.now)
        (pieces_of parts.now)) out.old.items out.new.items) }
    ensures unchanged { take (vec_len out.old) out.new.items ≡ out.old.items }
{
    for part in parts {
        append_one(subject, part, out)?;
    }
    Ok(())
}

/// Appends the text of `part`, with the items of `subject`.
fn append_one<S: ItemPrinter>(subject: &S, part: &Part, out: &mut Vec<u8>) -> Result<(), AllocError>
    requires { S.is_printable subject.now }
    ensures appended { OnOk result (GrowsBy (PrintsPieces (S.prints subject.now)
        (pieces_in part.now)) out.old.items out.new.items) }
    ensures unchanged { take (vec_len out.old) out.new.items ≡ out.old.items }
{
    match part {
        Part::Bytes(bytes) => append_run(bytes, out),
        Part::Item(item) => subject.append_item(*item, out),
    }
}

//! Queries about the last line, with results in the session's buffer, and copies to a buffer that C
//! provides.

ghost use Rattle.std.specs.Prelude.{◌≡◌, length, vec_len, OnErr, OnOk, IfOk, IfErr};
ghost use Rattle.std_alloc.specs.Vec.{vec_ptr};
ghost use Rattle.capi.specs.Queries.{IsQueryError, IsCopied, IsQueryResult, NeedsMore};
ghost use Rattle.capi.specs.Codes.{result_code};
ghost use Rattle.capi.specs.Handles.{IsBorrowed, borrowed_at};

use crate::codes::{OK, code_of};
use crate::fault::CallFault;
use crate::session::Session;
use line_segmenter::SegmentFault;
use mj_model::Origin;

/// A query about the last line or about the dictionaries.
#[derive(Clone, Copy, Debug, PartialEq, Eq, Drop)]
pub enum Query {
    /// The text of the path in the format.
    Path,
    /// The features of all words, concatenated.
    Features,
    /// The feature of an entry, which need not be a word of the path.
    EntryFeature(Origin),
}

/// Bytes that C borrows: their address and their number.
#[derive(Clone, Copy)]
pub struct BytesForC {
    pub at: *const u8,
    pub count: usize,
}

/// Copies `bytes` to the start of `out`, and stores their number in `needed`. Fails with
/// `ShortBuffer` if they don't fit.
pub fn copy_to(bytes: &[u8], out: &mut [u8], needed: &mut usize) -> Result<(), CallFault>
    ensures needed { needed.new ≡ length bytes.now }
    ensures copied { OnOk result (IsCopied bytes.now out.old out.new) }
    ensures short { IfErr result (NeedsMore (length bytes.now) (length out.old)) }
    ensures unchanged { OnErr result (out.new ≡ out.old) }
{
    *needed = bytes.len();
    if out.len() < bytes.len() {
        return Err(CallFault::ShortBuffer);
    }
    out[..bytes.len()].copy_from_slice(bytes);
    Ok(())
}

impl Session {
    /// Writes the result of a query to the session's buffer.
    fn write(&mut self, query: Query) -> Result<(), SegmentFault>
        ensures written { OnOk result
            (IsQueryResult query self.old.segmenter self.new.output.items) }
        ensures rejected { IfErr result (IsQueryError query self.old.segmenter) }
        ensures segmenter { self.new.segmenter ≡ self.old.segmenter }
    {
        self.output.clear();
        match query {
            Query::Path => self.segmenter.print(&mut self.output),
            Query::Features => self.segmenter.append_features(&mut self.output),
            Query::EntryFeature(origin) => self
                .segmenter
                .append_entry_feature(origin, &mut self.output),
        }
    }

    /// Writes the result of a query to the session's buffer, and returns pointer and length of the
    /// buffer.
    pub fn borrow(&mut self, query: Query) -> Result<BytesForC, SegmentFault>
        ensures borrowed { IfOk result
            (λ borrowed. IsBorrowed (IsQueryResult query) borrowed self.new) }
        ensures rejected { IfErr result (IsQueryError query self.old.segmenter) }
        ensures segmenter { self.new.segmenter ≡ self.old.segmenter }
    {
        self.write(query)?;
        Ok(self.borrowed())
    }

    /// Returns pointer and length of the session's buffer.
    pub fn borrowed(&self) -> BytesForC
        ensures { result ≡ borrowed_at (vec_ptr self.now.output) (vec_len self.now.output) }
    {
        BytesForC {
            at: self.output.as_ptr(),
            count: self.output.len(),
        }
    }
}

/// Returns the code of a result, and stores pointer and length of the borrowed bytes in `at` and
/// `count`. They stay unchanged on an error.
pub fn result_with_bytes(
    outcome: Result<BytesForC, CallFault>,
    at: &mut *const u8,
    count: &mut usize,
) -> u32
    ensures code { result ≡ result_code outcome }
    ensures place { IfOk outcome (λ borrowed. borrowed ≡ borrowed_at at.new count.new) }
    ensures unset { OnErr outcome (borrowed_at at.new count.new ≡ borrowed_at at.old count.old) }
{
    match outcome {
        Ok(
            BytesForC {
                at: place,
                count: length,
            },
        ) => {
            *at = place;
            *count = length;
            OK
        }
        Err(fault) => code_of(fault),
    }
}

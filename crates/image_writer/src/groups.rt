//! The groups of a lexicon. A group is the entries of one surface.
ghost use Rattle.std.specs.Prelude.{◌≡◌, ◌≢◌, ◌<◌, ◌≤◌, ◌+◌, ◌-◌, ◌^◌, ◌++◌, ◌∷◌, [], ◌↔◌, length, IsTrue, IfOk, IfErr, OnOk};
ghost use Rattle.mj_model.specs.CellMap.{IsMapWith};
ghost use Rattle.mj_model.specs.Lexicon.{rows_of};
ghost use Rattle.mj_model.specs.declared.limits.TheConstants.{SURFACE_MAX as SurfaceMax};
ghost use Rattle.image_writer.specs.Groups.{AreGrouped, StartsGroup};
ghost use Rattle.image_writer.specs.WriterErrors.{FullOnlyFor, FullOnlyNear, IsWriterFault, kind_of};
ghost use Rattle.mj_model.specs.declared.source_fault.SourceKind.TheVariants.{FeaturesTooLarge};

use double_array::{DaFault, DoubleArray};
use lex_source::SortedLexicon;
use mj_model::{Record, SourceKind};
use std::alloc::Global;

/// The groups of a lexicon, numbered from 0 in the byte order of their surfaces.
#[derive(Drop)]
pub(crate) struct Groups {
    /// The double array that maps surfaces to group numbers.
    pub array: DoubleArray,
    /// The number of each group's first entry.
    pub starts: Vec<u32>,
}

impl Groups {
    /// Adds a group with the surface `surface`, whose first entry is `start`.
    fn start_group(&mut self, surface: &[u8], start: u32) -> Result<(), SourceKind>
        requires some { 0 < length surface.now }
        requires short { length surface.now ≤ SurfaceMax }
        requires few { length self.old.starts.items < 2 ^ 31 - 1 }
        ensures map { OnOk result (IsMapWith self.old.array self.new.array surface.now
            (length self.old.starts.items)) }
        ensures starts { OnOk result (self.new.starts.items ≡ self.old.starts.items ++ start ∷ []) }
        ensures growth { length self.new.array ≤ length self.old.array + length surface.now + 600 }
        ensures full { IfErr result (FullOnlyNear self.old.array surface.now) }
        ensures no_features { IfErr result (λ fault. fault ≢ FeaturesTooLarge) }
        ensures kinds { IfErr result IsWriterFault }
    {
        let group = self.starts.len() as u32;
        self.array.insert(surface, group).map_err(source_kind)?;
        self.starts.push(start)?;
        Ok(())
    }
}

/// Returns an error of the double array as an error of the sources.
fn source_kind(fault: DaFault) -> SourceKind
    ensures { result ≡ kind_of fault }
{
    match fault {
        DaFault::Full => SourceKind::ArrayFull,
        DaFault::Memory => SourceKind::Memory,
    }
}

/// Returns the groups of a lexicon.
pub(crate) fn group_entries(
    alloc: Global,
    lexicon: &SortedLexicon<'_>,
) -> Result<Groups, SourceKind>
    ensures grouped { IfOk result (AreGrouped lexicon.now.rows (length lexicon.now.rows)) }
    ensures full { IfErr result (FullOnlyFor lexicon.now.rows) }
    ensures no_features { IfErr result (λ fault. fault ≢ FeaturesTooLarge) }
    ensures kinds { IfErr result IsWriterFault }
{
    let records = lexicon.records();
    let mut groups = Groups {
        array: DoubleArray::new(alloc)?,
        starts: Vec::new(alloc),
    };
    for i in 0..records.len() {
        if starts_group(records, i) {
            groups.start_group(records[i].surface.as_str().as_bytes(), i as u32)?;
        }
    }
    Ok(groups)
}

/// Returns whether entry `i` is the first one with its surface.
fn starts_group(records: &[Record<'_>], i: usize) -> bool
    requires { i < length records.now }
    ensures { IsTrue result ↔ StartsGroup (rows_of records.now) i }
{
    i == 0 || records[i].surface != records[i - 1].surface
}

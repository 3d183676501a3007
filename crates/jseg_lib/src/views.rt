//! Printing views of lines in place of the words of their best paths.

ghost use Rattle.std.specs.Prelude.{◌≡◌, ℕ, ◌≤◌, ◌⊎◌, Err};
ghost use Rattle.jseg_lib.specs.Printing.{RunAsRequested};
ghost use Rattle.jseg_lib.specs.Views.{ViewLineResult};
ghost use Rattle.dict_compile.specs.Compilation.{IsCompilationCause, IsCompilationFault};
ghost use Rattle.line_stream.specs.GoodRuns.{IsOkOrMemory, NothingFails};
ghost use Rattle.line_stream.specs.Runs.{MayRun, RunOutcome};
ghost use Rattle.mj_model.specs.declared.limits.TheConstants.{GROUPING_MAX, READS_MAX as ReadsMax};
ghost use Rattle.mj_model.specs.declared.run_fault.RunFault.TheVariants.{Source, UserSource};
ghost use Rattle.mj_model.specs.declared.source_fault.SourceFault.{SourceFault as FaultOf};
ghost use Rattle.mj_model.specs.Laws.{HasWords};
ghost use Rattle.mj_model.specs.PathLaws.{CoversTexts};
ghost use Rattle.segmenter.specs.SourceDicts.{IsRejectedFor};
ghost use Rattle.segmenter.specs.SourceRuns.{EndedBeforeReading};
ghost use Rattle.word_lookup.specs.Overlays.{overlay_of};
ghost use Rattle.jseg_lib.specs.declared.formatting.OutputForm.TheVariants.{View as OfView};

use lattice_view::lattice_printer::{LatticeBuffers, LatticeFormat, LatticePrinter};
use lattice_view::why_printer::WhyPrinter;
use line_stream::run_over;
use mj_model::{READS_MAX, RunFault, Sources, TextIn, TextOut};
use out_format::words_printer::LineBuffers;
use segmenter::{run_fault_of, system_dict};
use std::alloc::Global;
use word_lookup::Dictionaries;

/// The view that is printed for each line.
#[derive(Clone, Copy, Drop)]
pub enum View {
    /// The lattice of the line.
    Lattice(LatticeFormat),
    /// Each word of the best path with its cost, and its best rival.
    Why,
}

/// Prints the view of each line of `reader`, as `segment` prints words. Returns the number of
/// lines.
pub fn print_views<R: TextIn, W: TextOut>(
    alloc: Global,
    dictionaries: &Dictionaries<'_>,
    view: View,
    reader: &mut R,
    writer: &mut W,
) -> Result<u64, RunFault>
    requires counts { MayRun (R.state reader.old) (W.state writer.old) }
    // The dictionaries cover every text: each text has a best path.
    ensures covered { CoversTexts (overlay_of dictionaries.now) }
    // The words of the dictionaries fulfill the precondition of the contract of one lattice.
    ensures words { HasWords (overlay_of dictionaries.now) }
    // What was read and written, how the run ended, and the state of the reader.
    ensures run { RunOutcome (ViewLineResult view (overlay_of dictionaries.now)) ReadsMax
        (R.state reader.old) (R.state reader.new) (W.state writer.old) (W.state writer.new) result }
    // If each line is valid, no call fails and the reader ends within the bound, the result is Ok
    // or Memory.
    ensures succeeds { NothingFails ReadsMax (R.state reader.old) (R.state reader.new)
        (W.state writer.old) (W.state writer.new) → IsOkOrMemory result }
{
    let dictionaries = *dictionaries;
    match view {
        View::Lattice(format) => {
            let printer = LatticePrinter {
                alloc,
                dictionaries,
                format,
            };
            let mut buffers = LatticeBuffers::new(alloc);
            Ok(run_over(alloc, &printer, &mut buffers, reader, writer, READS_MAX)?)
        }
        View::Why => {
            let printer = WhyPrinter {
                alloc,
                dictionaries,
            };
            let mut buffers = LineBuffers::new(alloc);
            Ok(run_over(alloc, &printer, &mut buffers, reader, writer, READS_MAX)?)
        }
    }
}

/// Prints the view of each line of `reader` with the dictionary compiled from `sources`, as
/// `run_sources` prints words. Returns the number of lines.
pub fn print_source_views<R: TextIn, W: TextOut>(
    alloc: Global,
    sources: &Sources<'_>,
    grouping: u16,
    view: View,
    reader: &mut R,
    writer: &mut W,
) -> Result<u64, RunFault>
    requires grouping { grouping ≤ GROUPING_MAX }
    requires counts { MayRun (R.state reader.old) (W.state writer.old) }
    // An error of the sources has a cause in them. Like Memory(0), it comes before the first read,
    // so nothing was read or written.
    ensures source { (fault : FaultOf) → result ≡ Err (Source fault)
        → IsCompilationCause sources.now fault }
    ensures rejected { (fault : FaultOf) → IsCompilationFault sources.now fault
        → IsRejectedFor (Source fault) result }
    ensures no_user { (i : ℕ) (fault : FaultOf) → result ≡ Err (UserSource i fault) → ⊥ }
    ensures before_reading { EndedBeforeReading result
        → (reader.new ≡ reader.old) × (writer.new ≡ writer.old) }
    // If each line is valid, no call fails and the reader ends within the bound, the result is Ok
    // or Memory, unless the run ended before reading.
    ensures succeeds { NothingFails ReadsMax (R.state reader.old) (R.state reader.new)
        (W.state writer.old) (W.state writer.new)
        → IsOkOrMemory result ⊎ EndedBeforeReading result }
    // Every other run used the dictionary of the sources.
    ensures run { EndedBeforeReading result ⊎ RunAsRequested sources.now grouping (OfView view)
        (R.state reader.old) (R.state reader.new) (W.state writer.old) (W.state writer.new) result }
{
    let system = match system_dict(alloc, sources) {
        Ok(system) => system,
        Err(fault) => return Err(run_fault_of(fault, RunFault::Source(fault))),
    };
    let Ok(dictionaries) = Dictionaries::new(&system, &[]) else {
        unreachable!()
    };
    let dictionaries = dictionaries.with_grouping(grouping);
    print_views(alloc, &dictionaries, view, reader, writer)
}

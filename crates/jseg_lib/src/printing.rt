//! Segmenting the text of any reader in the requested output form.

ghost use Rattle.std.specs.Prelude.{◌≡◌, ℕ, ◌⊎◌, Err, IfErr, IfOk, None, OnOk, Some};
ghost use Rattle.dict_compile.specs.Compilation.{IsCompilationCause, IsCompilationFault};
ghost use Rattle.line_stream.specs.GoodRuns.{IsOkOrMemory, NothingFails};
ghost use Rattle.line_stream.specs.Runs.{MayRun, RunOutcome};
ghost use Rattle.mj_model.specs.declared.limits.TheConstants.{READS_MAX as ReadsMax};
ghost use Rattle.mj_model.specs.declared.run_fault.RunFault.TheVariants.{Source, UserSource};
ghost use Rattle.mj_model.specs.declared.source_fault.SourceFault.{SourceFault as FaultOf};
ghost use Rattle.jseg_lib.specs.Printing.{RunAsRequested, OutputLineResult, requested_grouping, requested_overlay};
ghost use Rattle.mj_model.specs.PathLaws.{CoversTexts};
ghost use Rattle.segmenter.specs.SourceDicts.{IsRejectedFor};
ghost use Rattle.segmenter.specs.SourceRuns.{EndedBeforeReading};
ghost use Rattle.word_lookup.specs.Overlays.{fault_of_images, overlay_of};

use crate::formatting::OutputForm;
use crate::views::{print_source_views, print_views};
use dict_image::Dict;
use mj_model::{GROUPING_MAX, OverlayFault, RunFault, Sources, TextIn, TextOut};
use segmenter::{run_sources, segment};
use std::alloc::Global;
use word_lookup::Dictionaries;

/// Combines a system dictionary and user dictionaries. `grouping` limits how many characters may
/// follow the first one of a grouped unknown word.
pub(crate) fn requested_dictionaries<'a>(
    system: &'a Dict,
    users: &'a [Dict],
    grouping: u16,
) -> Result<Dictionaries<'a>, OverlayFault>
    ensures overlay { IfOk result (λ dictionaries.
        overlay_of dictionaries ≡ requested_overlay system.now users.now grouping) }
    // Dictionaries that don't fit together are rejected, and no others are.
    ensures accepted { OnOk result (fault_of_images system.now users.now ≡ None) }
    ensures rejected { IfErr result (λ fault. fault_of_images system.now users.now ≡ Some fault) }
{
    match Dictionaries::new(system, users) {
        Ok(dictionaries) => Ok(dictionaries.with_grouping(grouping.min(GROUPING_MAX))),
        Err(fault) => Err(fault),
    }
}

/// Segments the text of `reader` with dictionaries, and prints it in the requested form. Returns
/// the number of lines.
pub(crate) fn segment_over<R: TextIn, W: TextOut>(
    alloc: Global,
    printed: &OutputForm,
    dictionaries: &Dictionaries<'_>,
    reader: &mut R,
    writer: &mut W,
) -> Result<u64, RunFault>
    requires counts { MayRun (R.state reader.old) (W.state writer.old) }
    ensures covered { CoversTexts (overlay_of dictionaries.now) }
    ensures run { RunOutcome (OutputLineResult printed.now (overlay_of dictionaries.now)) ReadsMax
        (R.state reader.old) (R.state reader.new) (W.state writer.old) (W.state writer.new) result }
    ensures succeeds { NothingFails ReadsMax (R.state reader.old) (R.state reader.new)
        (W.state writer.old) (W.state writer.new) → IsOkOrMemory result }
{
    match printed {
        OutputForm::Words(format) => segment(alloc, dictionaries, format, reader, writer),
        OutputForm::View(view) => print_views(alloc, dictionaries, *view, reader, writer),
    }
}

/// Segments the text of `reader` with the dictionary compiled from `sources`, without user
/// dictionaries, and prints it in the requested form. Returns the number of lines.
pub(crate) fn segment_over_sources<R: TextIn, W: TextOut>(
    alloc: Global,
    sources: &Sources<'_>,
    grouping: u16,
    printed: &OutputForm,
    reader: &mut R,
    writer: &mut W,
) -> Result<u64, RunFault>
    requires counts { MayRun (R.state reader.old) (W.state writer.old) }
    ensures source { (fault : FaultOf) → result ≡ Err (Source fault)
        → IsCompilationCause sources.now fault }
    ensures rejected { (fault : FaultOf) → IsCompilationFault sources.now fault
        → IsRejectedFor (Source fault) result }
    ensures before_reading { EndedBeforeReading result
        → (reader.new ≡ reader.old) × (writer.new ≡ writer.old) }
    ensures run { EndedBeforeReading result
        ⊎ RunAsRequested sources.now (requested_grouping grouping) printed.now
        (R.state reader.old) (R.state reader.new) (W.state writer.old) (W.state writer.new) result }
    ensures no_user { (i : ℕ) (fault : FaultOf) → result ≡ Err (UserSource i fault) → ⊥ }
    ensures succeeds { NothingFails ReadsMax (R.state reader.old) (R.state reader.new)
        (W.state writer.old) (W.state writer.new)
        → IsOkOrMemory result ⊎ EndedBeforeReading result }
{
    let grouping = grouping.min(GROUPING_MAX);
    match printed {
        OutputForm::Words(format) => {
            run_sources(alloc, sources, &[], grouping, format, reader, writer)
        }
        OutputForm::View(view) => {
            print_source_views(alloc, sources, grouping, *view, reader, writer)
        }
    }
}

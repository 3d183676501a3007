//! Segments text with dictionaries that are compiled from sources first.

ghost use Rattle.std.specs.Prelude.{◌≡◌, ℕ, ◌<◌, ◌≤◌, ◌⊎◌, Err, IfOk};
ghost use Rattle.mj_model.specs.declared.limits.TheConstants.{GROUPING_MAX, READS_MAX as ReadsMax};
ghost use Rattle.mj_model.specs.declared.run_fault.RunFault.TheVariants.{Source, UserSource};
ghost use Rattle.mj_model.specs.declared.source_fault.SourceFault.{SourceFault as FaultOf};
ghost use Rattle.dict_compile.specs.Compilation.{IsCompilationCause, IsCompilationFault};
ghost use Rattle.dict_compile.specs.SourceOverlays.{HaveOverlay, IsUsersCause, IsUsersFault};
ghost use Rattle.mj_model.specs.Tables.{Overlay};
ghost use Rattle.line_stream.specs.GoodRuns.{IsOkOrMemory, NothingFails};
ghost use Rattle.line_stream.specs.Runs.{MayRun};
ghost use Rattle.segmenter.specs.Segmentation.{WroteSegmentation};
ghost use Rattle.segmenter.specs.SourceRuns.{EndedBeforeReading, RunOverSources};
ghost use Rattle.segmenter.specs.SourceDicts.{IsRejectedFor, users_of};

use crate::dicts::{system_dict, user_dicts};
use crate::segmentation::segment;
use crate::source_faults::run_fault_of;
use mj_model::{RunFault, Sources, TextIn, TextOut};
use out_format::Format;
use std::alloc::Global;
use word_lookup::Dictionaries;

/// Segments the text of `reader` with the dictionaries compiled from `sources` and `users`, and
/// writes its words to `writer` in `format`. Returns the number of lines.
///
/// Each element of `users` holds the lexicons of one user dictionary. `grouping` is the number of
/// characters that may follow the first one of a grouped unknown word, at most `GROUPING_MAX` and
/// usually `GROUPING_DEFAULT`. Reader and writer are used as in `segment`.
pub fn run_sources<R: TextIn, W: TextOut>(
    alloc: Global,
    sources: &Sources<'_>,
    users: &[&[&[u8]]],
    grouping: u16,
    format: &Format,
    reader: &mut R,
    writer: &mut W,
) -> Result<u64, RunFault>
    requires grouping { grouping ≤ GROUPING_MAX }
    requires counts { MayRun (R.state reader.old) (W.state writer.old) }
    // If the result is Ok, the sources and user lexicons define dictionaries, the whole text was
    // read, all its lines are valid, and its segmentation was written and flushed once.
    ensures ok { IfOk result (λ lines. (o : Overlay)
        × HaveOverlay sources.now (users_of users.now) grouping o
        × WroteSegmentation o format.now (R.state reader.old) (R.state reader.new)
        (W.state writer.old) (W.state writer.new) lines) }
    // An error of the sources or of user lexicons is reported only if they have that error.
    ensures source { (fault : FaultOf) → result ≡ Err (Source fault)
        → IsCompilationCause sources.now fault }
    ensures user_source { (i : ℕ) (fault : FaultOf) → result ≡ Err (UserSource i fault)
        → IsUsersCause sources.now (users_of users.now) i fault }
    // Invalid sources, and then invalid user lexicons, are rejected with their first error, unless
    // memory or cells of the double array run out.
    ensures rejected { (fault : FaultOf) → IsCompilationFault sources.now fault
        → IsRejectedFor (Source fault) result }
    ensures user_rejected { (i : ℕ) (fault : FaultOf)
        → IsUsersFault sources.now (users_of users.now) i fault
        → IsRejectedFor (UserSource i fault) result }
    // Errors of the sources and of user lexicons, and `Memory(0)`, come before the first read:
    // nothing was read or written.
    ensures before_reading { EndedBeforeReading result
        → (reader.new ≡ reader.old) × (writer.new ≡ writer.old) }
    // Every other run used the dictionaries that the sources and user lexicons define, which cover
    // every text. For each result: what was read and written, how the run ended, and when the
    // reader is at its end.
    ensures run { EndedBeforeReading result
        ⊎ RunOverSources sources.now (users_of users.now) grouping format.now
        (R.state reader.old) (R.state reader.new) (W.state writer.old) (W.state writer.new) result }
    // If no line is invalid, no call fails and the input ends within the bound, the result is Ok or
    // `Memory`, unless the run ended before reading.
    ensures succeeds { NothingFails ReadsMax (R.state reader.old) (R.state reader.new)
        (W.state writer.old) (W.state writer.new)
        → IsOkOrMemory result ⊎ EndedBeforeReading result }
{
    let system = match system_dict(alloc, sources) {
        Ok(system) => system,
        Err(fault) => return Err(run_fault_of(fault, RunFault::Source(fault))),
    };
    let users = user_dicts(alloc, &system, users)?;
    let Ok(dictionaries) = Dictionaries::new(&system, &users) else {
        unreachable!()
    };
    let dictionaries = dictionaries.with_grouping(grouping);
    segment(alloc, &dictionaries, format, reader, writer)
}

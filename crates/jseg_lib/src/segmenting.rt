//! Segmenting standard input with the dictionary that the command line names.

ghost use Rattle.std.specs.Prelude.{◌≡◌, Err, IfOk};
ghost use Rattle.mj_model.specs.Counts.{MayBeWritten};
ghost use Rattle.mj_model.specs.declared.run_fault.RunFault.TheVariants.{Memory};
ghost use Rattle.programs.specs.declared.fault.Fault.TheVariants.{Run};
ghost use Rattle.jseg_lib.specs.Printing.{IsPrintedBySources};
ghost use Rattle.jseg_lib.specs.RequestedOutput.{IsPrintedByDirectory, IsPrintedBySample, IsRequestedOutput};

use crate::formatting::{OutputForm, output_form, part_text};
use crate::images::{ImagePaths, segment_by_images};
use crate::printing::segment_over_sources;
use crate::source_directory::{Directory, read_directory};
use crate::watched_reader::WatchedReader;
use command_lines::jseg::{Input, Options};
use dict_image::{Dict, DigestTest};
use mj_model::{Counted, FormatFault, NO_FILE, RunFault, Sources, TextOut};
use programs::{Fault, Progress, Reporter, Stage, load_dictionary, texts};
use segmenter::sample;
use std::io::{Read, Write};

/// How lines are segmented and printed, and where log messages go. `grouping` limits how many
/// characters may follow the first one of a grouped unknown word.
#[derive(Drop)]
pub struct SegmentSettings<'a> {
    pub grouping: u16,
    pub printed: OutputForm,
    pub reporter: Reporter<'a>,
}

/// Segments standard input and prints the result, with log messages if they are requested. After an
/// error, the output printed so far is flushed.
pub fn segment_input(rt: &HostRuntime, options: &Options) -> Result<(), Fault> {
    let reporter = Reporter::new(rt, "jseg", options.verbose);
    let load = |path: &str, digest: DigestTest| load_dictionary(rt, path, digest);
    let read = |dir: &str| read_directory(rt, dir);
    let mut writer = Counted::new(rt.stdout());
    let lines = segment_lines(rt, options, reporter, load, read, rt.reader(), &mut writer);
    match &lines {
        Ok(lines) => reporter.log(Stage::Segment { lines: *lines }),
        Err(fault) => {
            let _ = writer.flush();
            log_cause(&reporter, options, fault);
        }
    }
    lines.map(|_lines| ())
}

/// Prints a hint on the cause of an error, and marks the position of an error in a format.
fn log_cause(reporter: &Reporter<'_>, options: &Options, fault: &Fault) {
    reporter.log_cause(fault);
    if let Fault::Format(FormatFault::Bad { part, at, .. }) = fault {
        if let Some(text) = part_text(options, *part) {
            reporter.log_mark(text, *at);
        }
    }
}

/// Segments `text` as the options request, with dictionaries that `load` loads or with a source
/// directory that `read` reads, and returns the number of lines.
fn segment_lines<L, D, R: Read + Drop, W: TextOut>(
    rt: &HostRuntime,
    options: &Options,
    reporter: Reporter<'_>,
    load: L,
    read: D,
    text: R,
    writer: &mut W,
) -> Result<u64, Fault>
where
    L: Fn(&str, DigestTest) -> Result<Dict, Fault> + Drop,
    D: Fn(&str) -> Result<Directory, Fault> + Drop,
    requires load { L.IsAlwaysCallable load }
    requires read { D.IsAlwaysCallable read }
    requires counts { MayBeWritten (W.state writer.old) }
    // If the result is Ok, all of the text was printed as the options request.
    ensures ok { IfOk result (IsRequestedOutput (L.post load) (D.post read) options.now
        (R.remaining text) (W.state writer.old) (W.state writer.new)) }
    // An allocation failure has line number 0 only if nothing was printed.
    ensures before_reading { result ≡ Err (Run (Memory 0)) → writer.new ≡ writer.old }
{
    let printed = match output_form(rt.alloc(), options) {
        Ok(printed) => printed,
        Err(fault) => return Err(Fault::Format(fault)),
    };
    let settings = SegmentSettings {
        grouping: options.grouping,
        printed,
        reporter,
    };
    match &options.input {
        Input::Images {
            dic,
            users,
            skip_digest,
        } => {
            let images = ImagePaths {
                dic: dic.as_str(),
                users,
                digest: DigestTest::skipped_if(*skip_digest),
            };
            segment_by_images(rt, &images, load, &settings, text, writer)
        }
        Input::Sources(dir) => {
            segment_by_directory(rt, &settings, dir.as_str(), read, text, writer)
        }
        Input::Sample => segment_by_sample(rt, &settings, text, writer),
    }
}

/// Segments `text` with the dictionary compiled from the source directory `dir`, which `read` reads.
fn segment_by_directory<D, R: Read + Drop, W: TextOut>(
    rt: &HostRuntime,
    settings: &SegmentSettings<'_>,
    dir: &str,
    read: D,
    text: R,
    writer: &mut W,
) -> Result<u64, Fault>
where
    D: Fn(&str) -> Result<Directory, Fault> + Drop,
    requires read { D.IsAlwaysCallable read }
    requires counts { MayBeWritten (W.state writer.old) }
    ensures ok { IfOk result (IsPrintedByDirectory (D.post read) dir.now settings.now.grouping
        settings.now.printed (R.remaining text) (W.state writer.old) (W.state writer.new)) }
    ensures before_reading { result ≡ Err (Run (Memory 0)) → writer.new ≡ writer.old }
{
    let Directory { matrix, files } = read(dir)?;
    files.log(&settings.reporter, matrix.len(), &matrix);
    let lexicons = texts(rt.alloc(), &files.lexicons)?;
    let sources = Sources {
        matrix: &matrix,
        chars: &files.chars.bytes,
        unk: &files.unk.bytes,
        lexicons: &lexicons,
    };
    match segment_by_sources(rt, &sources, settings, text, writer) {
        Ok(lines) => Ok(lines),
        Err(RunFault::Source(fault)) => {
            Err(Fault::of_source(rt.alloc(), files.path(fault.file), fault))
        }
        Err(fault) => Err(Fault::Run(fault)),
    }
}

/// Segments `text` with the dictionary compiled from the sample's sources.
fn segment_by_sample<R: Read + Drop, W: TextOut>(
    rt: &HostRuntime,
    settings: &SegmentSettings<'_>,
    text: R,
    writer: &mut W,
) -> Result<u64, Fault>
    requires { MayBeWritten (W.state writer.old) }
    ensures ok { IfOk result (IsPrintedBySample settings.now.grouping settings.now.printed
        (R.remaining text) (W.state writer.old) (W.state writer.new)) }
    ensures before_reading { result ≡ Err (Run (Memory 0)) → writer.new ≡ writer.old }
{
    match segment_by_sources(rt, &sample(), settings, text, writer) {
        Ok(lines) => Ok(lines),
        Err(RunFault::Source(fault)) => {
            let path = (fault.file != NO_FILE).then_some("sample");
            Err(Fault::of_source(rt.alloc(), path, fault))
        }
        Err(fault) => Err(Fault::Run(fault)),
    }
}

/// Segments `text` with the dictionary compiled from `sources`, without user dictionaries.
fn segment_by_sources<R: Read + Drop, W: TextOut>(
    rt: &HostRuntime,
    sources: &Sources<'_>,
    settings: &SegmentSettings<'_>,
    text: R,
    writer: &mut W,
) -> Result<u64, RunFault>
    requires { MayBeWritten (W.state writer.old) }
    ensures ok { IfOk result (IsPrintedBySources sources.now settings.now.grouping
        settings.now.printed (R.remaining text) (W.state writer.old) (W.state writer.new)) }
    ensures before_reading { result ≡ Err (Memory 0) → writer.new ≡ writer.old }
{
    let progress = Progress::new(rt);
    let counted = Counted::new(text);
    let mut text = WatchedReader::new(rt, counted, settings.reporter, &progress);
    let result = segment_over_sources(
        rt.alloc(),
        sources,
        settings.grouping,
        &settings.printed,
        &mut text,
        writer,
    );
    progress.erase();
    result
}

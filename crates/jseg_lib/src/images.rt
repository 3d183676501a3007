//! Segmenting standard input with the images that the command line names.

ghost use Rattle.std.specs.Prelude.{◌≡◌, ◌<◌, Err, IfErr, IfOk, Ok, length, slice_get};
ghost use Rattle.mj_model.specs.Counts.{MayBeWritten};
ghost use Rattle.mj_model.specs.declared.run_fault.RunFault.{RunFault as RunFaultOf};
ghost use Rattle.mj_model.specs.declared.run_fault.RunFault.TheVariants.{Memory};
ghost use Rattle.programs.specs.Faults.{Names};
ghost use Rattle.programs.specs.declared.fault.Fault.TheVariants.{Overlay, Run};
ghost use Rattle.jseg_lib.specs.PeekedReader.{IsUncounted};
ghost use Rattle.jseg_lib.specs.Images.{path_at_fault, path_or};
ghost use Rattle.jseg_lib.specs.Printing.{IsPrintedOver, requested_overlay};
ghost use Rattle.jseg_lib.specs.RequestedOutput.{IsPrintedByImages};

use crate::peeking::peek_and_cache_costs;
use crate::printing::{requested_dictionaries, segment_over};
use crate::segmenting::SegmentSettings;
use crate::watched_reader::WatchedReader;
use dict_image::{Dict, DigestTest};
use line_stream::new_buffer;
use mj_model::{Counted, OverlayFault, RunFault, TextIn, TextOut};
use programs::{Fault, Progress, Stage, dictionaries_at};
use std::alloc::Global;
use std::io::Read;
use std::string::String;

/// The paths of the images of a run, and whether their checksums are tested.
#[derive(Clone, Copy)]
pub struct ImagePaths<'a> {
    pub dic: &'a str,
    pub users: &'a [String],
    pub digest: DigestTest,
}

/// Segments `text` with a system dictionary and user dictionaries, which `load` loads, and returns
/// the number of lines.
pub fn segment_by_images<L, R: Read + Drop, W: TextOut>(
    rt: &HostRuntime,
    images: &ImagePaths<'_>,
    load: L,
    settings: &SegmentSettings<'_>,
    text: R,
    writer: &mut W,
) -> Result<u64, Fault>
where
    L: Fn(&str, DigestTest) -> Result<Dict, Fault> + Drop,
    requires counts { MayBeWritten (W.state writer.old) }
    requires load { L.IsAlwaysCallable load }
    // If the result is Ok, each dictionary is the result of `load` for its path, and all of the
    // text was printed with these dictionaries.
    ensures ok { IfOk result (IsPrintedByImages (L.post load) images.now.digest
        images.now.dic.now images.now.users.now settings.now.grouping settings.now.printed
        (R.remaining text) (W.state writer.old) (W.state writer.new)) }
    // An allocation failure has line number 0 only if nothing was printed.
    ensures before_reading { result ≡ Err (Run (Memory 0)) → writer.new ≡ writer.old }
{
    let mut system = load(images.dic, images.digest)?;
    settings.reporter.log(Stage::Loaded { path: images.dic });
    let overlays = dictionaries_at(rt.alloc(), images.users, images.digest, load)?;
    let progress = Progress::new(rt);
    let counted = Counted::new(text);
    let text = WatchedReader::new(rt, counted, settings.reporter, &progress);
    let result = segment_text(
        rt.alloc(),
        images,
        &mut system,
        &overlays,
        settings,
        text,
        writer,
    );
    progress.erase();
    result
}

/// Segments `text` with dictionaries and returns the number of lines.
fn segment_text<R: TextIn + Drop, W: TextOut>(
    alloc: Global,
    images: &ImagePaths<'_>,
    system: &mut Dict,
    overlays: &[Dict],
    settings: &SegmentSettings<'_>,
    text: R,
    writer: &mut W,
) -> Result<u64, Fault>
    requires reads { IsUncounted (R.state text) }
    requires writes { MayBeWritten (W.state writer.old) }
    ensures ok { IfOk result (IsPrintedOver settings.now.printed
        (requested_overlay system.old overlays.now settings.now.grouping) (R.remaining text)
        (W.state writer.old) (W.state writer.new)) }
    ensures before_reading { result ≡ Err (Run (Memory 0)) → writer.new ≡ writer.old }
{
    match new_buffer(alloc) {
        Ok(buffer) => {
            segment_with_buffer(
                alloc, images, system, overlays, buffer, settings, text, writer,
            )
        }
        Err(_) => Err(Fault::Run(RunFault::Memory(0))),
    }
}

/// Segments `text` with dictionaries and returns the number of lines. The first read may go to
/// `buffer`.
fn segment_with_buffer<R: TextIn + Drop, W: TextOut>(
    alloc: Global,
    images: &ImagePaths<'_>,
    system: &mut Dict,
    overlays: &[Dict],
    buffer: Vec<u8>,
    settings: &SegmentSettings<'_>,
    text: R,
    writer: &mut W,
) -> Result<u64, Fault>
    requires room { 0 < length buffer.items }
    requires reads { IsUncounted (R.state text) }
    requires writes { MayBeWritten (W.state writer.old) }
    ensures ok { IfOk result (IsPrintedOver settings.now.printed
        (requested_overlay system.old overlays.now settings.now.grouping) (R.remaining text)
        (W.state writer.old) (W.state writer.new)) }
    // The text may have been read, so an allocation failure has the number of a line, from 1 on.
    ensures after_reading { result ≡ Err (Run (Memory 0)) → ⊥ }
{
    let mut reader = peek_and_cache_costs(alloc, system, overlays, buffer, text);
    match requested_dictionaries(system, overlays, settings.grouping) {
        Ok(dictionaries) => {
            let printed = &settings.printed;
            run_result(segment_over(alloc, printed, &dictionaries, &mut reader, writer))
        }
        Err(fault) => Err(overlay_fault(alloc, images.dic, images.users, fault)),
    }
}

/// Returns the number of lines of a run, or its error.
fn run_result(lines: Result<u64, RunFault>) -> Result<u64, Fault>
    ensures ok { IfOk result (λ count. lines ≡ Ok count) }
    ensures error { IfErr result (λ reported. (fault : RunFaultOf)
        × (lines ≡ Err fault) × (reported ≡ Run fault)) }
{
    match lines {
        Ok(count) => Ok(count),
        Err(fault) => Err(Fault::Run(fault)),
    }
}

/// Returns the error of images that don't fit together, with the path of the image at fault.
pub fn overlay_fault(alloc: Global, dic: &str, users: &[String], fault: OverlayFault) -> Fault
    ensures { Names (λ reported. Overlay reported fault)
        (path_at_fault dic.now users.now fault) result }
{
    Fault::of_overlay(alloc, path_of(dic, users, fault), fault)
}

/// Returns the path of the image at fault.
fn path_of<'a>(dic: &'a str, users: &'a [String], fault: OverlayFault) -> &'a str
    ensures { result.now ≡ path_at_fault dic.now users.now fault }
{
    match fault {
        OverlayFault::NotSystem => dic,
        OverlayFault::NotUser(i) | OverlayFault::OtherSizes(i) => path_of_user(dic, users, i),
    }
}

/// Returns the path of user dictionary `number`, counted from 0, or `dic` if there is none.
fn path_of_user<'a>(dic: &'a str, users: &'a [String], number: usize) -> &'a str
    ensures { result.now ≡ path_or dic.now (slice_get users.now number) }
{
    match users.get(number) {
        Some(path) => path.as_str(),
        None => dic,
    }
}

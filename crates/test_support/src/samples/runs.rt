//! Runs over sources and a text in memory.

use mj_model::{Counted, GROUPING_DEFAULT, RunFault, Sources, TextIn};
use out_format::Format;
use segmenter::run_sources;
use std::alloc::Global;

/// The result of a run, the bytes it wrote, and the number of reads it made.
#[derive(Drop)]
pub struct Outcome {
    pub returned: Result<u64, RunFault>,
    pub written: Vec<u8>,
    pub reads: u64,
}

impl Outcome {
    /// Returns whether the run failed with `fault` before its first read, with nothing written.
    pub fn is_rejection(&self, fault: RunFault) -> bool {
        self.returned == Err(fault) && self.reads == 0 && self.written.is_empty()
    }
}

/// Segments `text` in the default format, with dictionaries compiled from `sources` and from the
/// lexicons of each item of `users`.
pub fn run(alloc: Global, sources: &Sources<'_>, users: &[&[&[u8]]], text: &[u8]) -> Outcome {
    match Format::default_of(alloc) {
        Ok(format) => run_in(alloc, &format, sources, users, text),
        Err(_) => Outcome {
            returned: Err(RunFault::Memory(0)),
            written: Vec::new(alloc),
            reads: 0,
        },
    }
}

/// Segments `text` in `format`, with dictionaries compiled from `sources` and from the lexicons of
/// each item of `users`.
pub fn run_in(
    alloc: Global,
    format: &Format,
    sources: &Sources<'_>,
    users: &[&[&[u8]]],
    text: &[u8],
) -> Outcome {
    let mut reader = Counted::new(text);
    let mut written = Vec::new(alloc);
    let mut writer = Counted::new(&mut written);
    let returned = run_sources(
        alloc,
        sources,
        users,
        GROUPING_DEFAULT,
        format,
        &mut reader,
        &mut writer,
    );
    Outcome {
        returned,
        written,
        reads: reader.reads(),
    }
}

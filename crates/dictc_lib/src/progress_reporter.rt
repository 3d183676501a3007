//! Log messages for the steps of a compilation (`-v`).

ghost use Rattle.std.specs.Prelude.{◌≡◌, ◌+◌, ◌-◌, ◌^◌, [], min};
ghost use Rattle.dictc_lib.specs.ReportedSteps.{HasReported, IsStageOf, path_of, read_after};

use dict_compile::{CompileStep, Watch};
use programs::{Reporter, Stage, WholeFile};

/// Logs each step of a compilation of these lexicons.
#[derive(Drop)]
pub(crate) struct ProgressReporter<'a> {
    reporter: &'a Reporter<'a>,
    lexicons: &'a [WholeFile],
    /// Number of lexicons read so far.
    read: usize,
}

impl<'a> ProgressReporter<'a> {
    /// Returns a value that has reported no step. `lexicons` are the files in the order in which
    /// they are read.
    pub(crate) fn new(reporter: &'a Reporter<'a>, lexicons: &'a [WholeFile]) -> ProgressReporter<'a>
        ensures { HasReported [] result }
    {
        ProgressReporter {
            reporter,
            lexicons,
            read: 0,
        }
    }

    /// Returns the log message for a step.
    fn stage(&mut self, step: CompileStep) -> Stage<'a>
        ensures stage { IsStageOf self.old.lexicons.now self.old.read step result }
        ensures read { self.new.read ≡ read_after step self.old.read }
    {
        match step {
            CompileStep::MatrixRead(sizes) => Stage::CostsRead {
                right: sizes.right,
                left: sizes.left,
            },
            CompileStep::CategoriesRead(categories) => Stage::CategoriesRead { categories },
            CompileStep::UnknownRead => Stage::UnknownRead,
            CompileStep::LexiconRead { entries } => Stage::LexiconRead {
                path: self.next_path(),
                entries,
            },
            CompileStep::Sorted { entries } => Stage::Sorted { entries },
        }
    }

    /// Returns the path of the next lexicon, and counts it as read.
    fn next_path(&mut self) -> &'a str
        ensures path { result.now ≡ path_of self.old.lexicons.now self.old.read }
        ensures read { self.new.read ≡ min (self.old.read + 1) (2 ^ 64 - 1) }
    {
        let path = match self.lexicons.get(self.read) {
            Some(file) => file.path.as_str(),
            None => "",
        };
        self.read = self.read.saturating_add(1);
        path
    }
}

impl<'a> Watch for ProgressReporter<'a> {
    ghost reported = { λ progress steps. HasReported steps progress };

    fn done(&mut self, step: CompileStep) {
        let stage = self.stage(step);
        self.reporter.log(stage);
    }
}

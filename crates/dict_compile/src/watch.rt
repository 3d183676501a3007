//! Progress of a compilation.

ghost use Rattle.std.specs.Prelude.{List, [], ◌∷◌, ◌++◌};
ghost use Rattle.dict_compile.specs.declared.watch.CompileStep.{CompileStep as StepOf};

use mj_model::MatrixSizes;

/// A completed step of a compilation.
#[derive(Clone, Copy, Debug, PartialEq, Eq)]
pub enum CompileStep {
    /// `matrix.def` was read, with these numbers of right ids and left ids.
    MatrixRead(MatrixSizes),
    /// `char.def` was read, with this number of categories.
    CategoriesRead(usize),
    /// `unk.def` was read.
    UnknownRead,
    /// A lexicon was read. `entries` counts the entries of this lexicon and of those before it.
    LexiconRead { entries: u64 },
    /// All entries were sorted by their surfaces. `entries` is their number.
    Sorted { entries: u64 },
}

/// A receiver of progress reports.
pub trait Watch {
    /// Holds of the steps that were reported so far, in order.
    ghost reported: { Self → List StepOf → Type 0 };

    /// Receives a step as soon as it is completed.
    fn done(&mut self, step: CompileStep)
        ensures { (steps : List StepOf) → reported self.old steps
            → reported self.new (steps ++ step ∷ []) };
}

/// A receiver that ignores all reports.
#[derive(Drop)]
pub(crate) struct Unwatched {}

impl Watch for Unwatched {
    ghost reported = { λ _ _. Unit {0} };

    fn done(&mut self, _step: CompileStep) {}
}

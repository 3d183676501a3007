//! The steps that a compilation reports.

ghost use Rattle.std.specs.Prelude.{◌≡◌, false};

use crate::tests::samples::{sample_dict, with_lexicons};
use dict_compile::{
    CompileStep, Compiled, OtherSources, Watch, compile_others_watched, compile_user_watched,
    compile_watched,
};
use matrix_def::read_matrix;
use mj_model::{MatrixSizes, SourceFault, Sources};
use std::alloc::Global;
use std::test::Fail;

/// The steps reported so far.
#[derive(Drop)]
pub struct RecordedSteps {
    pub steps: Vec<CompileStep>,
    rejected: bool,
}

impl RecordedSteps {
    pub fn nothing(alloc: Global) -> RecordedSteps {
        RecordedSteps {
            steps: Vec::new(alloc),
            rejected: false,
        }
    }
}

impl Watch for RecordedSteps {
    ghost reported = { λ t steps. t.rejected ≡ false → t.steps.items ≡ steps };

    fn done(&mut self, step: CompileStep) {
        self.rejected |= self.steps.push(step).is_err();
    }
}

const LEXICONS: &[&[u8]] = &[b"a,1,1,5,X\nb,1,1,5,X\n,1,1,5,X\n", b"c,1,1,5,X\n"];

/// The steps of a system dictionary before its lexicons.
static BEFORE: [CompileStep; 3] = [
    CompileStep::MatrixRead(MatrixSizes { right: 2, left: 2 }),
    CompileStep::CategoriesRead(6),
    CompileStep::UnknownRead,
];

/// The steps of the lexicons.
static READ: [CompileStep; 3] = [
    CompileStep::LexiconRead { entries: 2 },
    CompileStep::LexiconRead { entries: 3 },
    CompileStep::Sorted { entries: 3 },
];

/// The step of the first lexicon if the second one has an error.
static FIRST_READ: [CompileStep; 1] = [CompileStep::LexiconRead { entries: 1 }];

/// Returns whether the reported steps are `before` and then `then`.
fn are_steps(recorded: &RecordedSteps, before: &[CompileStep], then: &[CompileStep]) -> bool {
    !recorded.rejected
        && recorded.steps.len() == before.len().saturating_add(then.len())
        && recorded.steps.starts_with(before)
        && recorded.steps.ends_with(then)
}

/// Compiles `sources`, and records the steps in `recorded`.
pub fn compiled_with(
    alloc: Global,
    sources: &Sources<'_>,
    recorded: &mut RecordedSteps,
) -> Result<Compiled, SourceFault> {
    compile_watched(alloc, sources, recorded)
}

#[test]
fn steps_of_a_system(rt: HostRuntime) -> Result<(), Fail> {
    let mut recorded = RecordedSteps::nothing(rt.alloc());
    compiled_with(rt.alloc(), &with_lexicons(LEXICONS), &mut recorded)?;
    assert!(rt; are_steps(&recorded, &BEFORE, &READ));
    Ok(())
}

/// Returns the number of entries and of skipped lines if the costs have already been read.
fn counts_with_costs(alloc: Global, recorded: &mut RecordedSteps) -> Result<(u64, u128), Fail> {
    let Sources {
        matrix,
        chars,
        unk,
        lexicons,
    } = with_lexicons(LEXICONS);
    let costs = read_matrix(alloc, matrix)?;
    let others = OtherSources {
        chars,
        unk,
        lexicons,
    };
    let compiled = compile_others_watched(alloc, costs, &others, recorded)?;
    Ok((compiled.entries, compiled.skipped))
}

#[test]
fn steps_with_costs_read_before(rt: HostRuntime) -> Result<(), Fail> {
    let mut recorded = RecordedSteps::nothing(rt.alloc());
    assert!(rt; counts_with_costs(rt.alloc(), &mut recorded)? == (3, 1));
    assert!(rt; are_steps(&recorded, &BEFORE, &READ));
    Ok(())
}

#[test]
fn steps_of_a_user(rt: HostRuntime) -> Result<(), Fail> {
    let system = sample_dict(rt.alloc())?;
    let mut recorded = RecordedSteps::nothing(rt.alloc());
    compile_user_watched(rt.alloc(), &system, LEXICONS, &mut recorded)?;
    assert!(rt; are_steps(&recorded, &[], &READ));
    Ok(())
}

#[test]
fn steps_before_a_fault(rt: HostRuntime) {
    let mut recorded = RecordedSteps::nothing(rt.alloc());
    let sources = with_lexicons(&[b"a,1,1,5,X\n", b"b,1,x,5,X\n"]);
    assert!(rt; compiled_with(rt.alloc(), &sources, &mut recorded).is_err());
    assert!(rt; are_steps(&recorded, &BEFORE, &FIRST_READ));
}

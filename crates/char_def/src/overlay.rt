//! Categories of code points as steps, with later mappings laid over earlier ones.
ghost use Rattle.std.specs.Prelude.{◌≡◌, ◌≤◌, ◌<◌, ◌+◌, ◌⊎◌, ℕ, [], length, IfOk, MatchOption};
ghost use Rattle.char_def.specs.Results.{IsFirstOf};
ghost use Rattle.char_def.specs.Steps.{info_from, info_by, AreRising, StartAt, AreOverlaid};

use mj_model::CharInfo;
use std::alloc::{AllocError, Global};

/// The categories of the code points from `first` up to the next step, or `None` if no mapping
/// covers them.
#[derive(Clone, Copy, Drop)]
pub struct CategoryStep {
    pub first: u32,
    pub info: Option<CharInfo>,
}

/// The remaining steps of a list, and the categories before the first of them.
#[derive(Clone, Copy)]
pub(crate) struct Upcoming<'a> {
    info: Option<CharInfo>,
    steps: &'a [CategoryStep],
}

impl<'a> Upcoming<'a> {
    /// Returns the steps that remain after the one at code point `first`, if there is such a step.
    fn past(self, first: u32) -> Upcoming<'a>
        requires { AreRising first self.steps.now }
        ensures same { (code : ℕ) → first ≤ code
            → info_from self.entry.info self.entry.steps.now code
            ≡ info_from result.info result.steps.now code }
        ensures rising { AreRising (first + 1) result.steps.now }
        ensures no_more { length result.steps.now ≤ length self.entry.steps.now }
        ensures fewer { StartAt first self.entry.steps.now
            → length result.steps.now < length self.entry.steps.now }
    {
        match self.steps {
            [step, rest @ ..] if step.first == first => Upcoming {
                info: step.info,
                steps: rest,
            },
            _ => self,
        }
    }
}

/// Returns the start of the first step of both lists.
fn next_first(lower: &[CategoryStep], upper: &[CategoryStep]) -> Option<u32>
    ensures least { IsFirstOf lower.now upper.now result }
    ensures begins { MatchOption result (lower.now ≡ [])
        (λ first. StartAt first lower.now ⊎ StartAt first upper.now) }
{
    match (lower.first(), upper.first()) {
        (Some(below), Some(above)) => Some(below.first.min(above.first)),
        (Some(below), None) => Some(below.first),
        (None, Some(above)) => Some(above.first),
        (None, None) => None,
    }
}

/// Lays the steps `above` over the steps `below`. Those `below` apply only to code points that no
/// mapping of `above` covers.
pub(crate) fn overlay(
    alloc: Global,
    below: &[CategoryStep],
    above: &[CategoryStep],
) -> Result<Vec<CategoryStep>, AllocError>
    requires below { AreRising 0 below.now }
    requires above { AreRising 0 above.now }
    ensures { IfOk result (λ steps. AreOverlaid below.now above.now steps.items) }
{
    let mut steps = Vec::with_capacity(alloc, below.len() + above.len())?;
    let mut lower = Upcoming {
        info: None,
        steps: below,
    };
    let mut upper = Upcoming {
        info: None,
        steps: above,
    };
    while let Some(first) = next_first(lower.steps, upper.steps) {
        lower = lower.past(first);
        upper = upper.past(first);
        steps.push(CategoryStep {
            first,
            info: upper.info.or(lower.info),
        })?;
    }
    Ok(steps)
}

/// Returns the categories that the steps give to the code point `code`.
pub(crate) fn find_step(steps: &[CategoryStep], code: u32) -> Option<CharInfo>
    requires { AreRising 0 steps.now }
    ensures { result ≡ info_by steps.now code }
{
    let following = steps.partition_point(|step| step.first <= code);
    if following == 0 {
        None
    } else {
        steps[following - 1].info
    }
}

//! Errors of sources as errors of a run.

ghost use Rattle.std.specs.Prelude.{◌≡◌};
ghost use Rattle.mj_model.specs.declared.run_fault.RunFault.{RunFault as FaultOfRun};
ghost use Rattle.mj_model.specs.declared.source_fault.SourceFault.{SourceFault as FaultOf};
ghost use Rattle.segmenter.specs.SourceFaults.{IsRunFaultFor};

use mj_model::{RunFault, SourceFault, SourceKind};

/// Returns the error of a run whose sources have the error `fault`: `Memory(0)`, which belongs to
/// no line, if memory ran out, otherwise `reported`, the caller's `RunFault` for `fault`.
pub fn run_fault_of(fault: SourceFault, reported: RunFault) -> RunFault
    ensures { (end : FaultOf → FaultOfRun)
        → reported ≡ end fault → IsRunFaultFor end fault result }
{
    match fault.kind {
        SourceKind::Memory => RunFault::Memory(0),
        _ => reported,
    }
}

//! Compiles sources into dictionaries.

ghost use Rattle.std.specs.Prelude.{◌≡◌, ℕ, ◌++◌, ◌∷◌, [], IfOk, IfErr, OnOk};
ghost use Rattle.std.specs.List.{AllZip};
ghost use Rattle.mj_model.specs.declared.run_fault.RunFault.TheVariants.{UserSource};
ghost use Rattle.mj_model.specs.declared.source_fault.SourceFault.{SourceFault as FaultOf};
ghost use Rattle.mj_model.specs.declared.source_fault.SourceKind.TheVariants.{Memory};
ghost use Rattle.dict_compile.specs.Compilation.{IsCompilationCause, IsCompilationFault, IsUserCause, IsUserFault};
ghost use Rattle.mj_model.specs.FirstFault.{IsMemoryOr};
ghost use Rattle.image_format.specs.ImageMeaning.{image_tables};
ghost use Rattle.dict_compile.specs.SourceOverlays.{IsOfUser};
ghost use Rattle.mj_model.specs.Tables.{System};
ghost use Rattle.dict_compile.specs.Results.{IsRejectedFor as IsCompileRejectedFor};
ghost use Rattle.segmenter.specs.SourceDicts.{IsDictOf, IsUserDictOf, IsUsersError, IsRejectedFor, lexicons_of, users_of};

use crate::source_faults::run_fault_of;
use dict_compile::{CompileUserFault, compile, compile_user};
use dict_image::{Dict, load_written};
use mj_model::{RunFault, SourceFault, Sources};
use std::alloc::{AllocError, Global};

/// Compiles `sources` into a system dictionary, in memory. Fails with their first error, or if
/// memory or the cells of the double array run out.
pub fn system_dict(alloc: Global, sources: &Sources<'_>) -> Result<Dict, SourceFault>
    ensures dict { IfOk result (λ dict. IsDictOf sources.now dict) }
    ensures rejected { IfErr result (λ fault.
        IsMemoryOr fault (IsCompilationCause sources.now fault)) }
    ensures first { (fault : FaultOf) → IsCompilationFault sources.now fault
        → IsCompileRejectedFor fault result }
{
    let compiled = compile(alloc, sources)?;
    Ok(load_written(alloc, compiled.image)?)
}

/// Compiles `lexicons` into a user dictionary for the dictionary `system`.
fn user_dict(alloc: Global, system: &Dict, lexicons: &[&[u8]]) -> Result<Dict, SourceFault>
    requires { (image_tables system.now).kind ≡ System }
    ensures dict { IfOk result (λ dict.
        IsUserDictOf (image_tables system.now) (lexicons_of lexicons.now) dict) }
    ensures rejected { IfErr result (λ fault.
        IsMemoryOr fault (IsUserCause (image_tables system.now) (lexicons_of lexicons.now) fault)) }
{
    let compiled = match compile_user(alloc, system, lexicons) {
        Ok(compiled) => compiled,
        Err(CompileUserFault::Source(fault)) => return Err(fault),
        Err(CompileUserFault::NotSystem) => unreachable!(),
    };
    Ok(load_written(alloc, compiled.image)?)
}

/// Compiles one user dictionary from each of `users`, and stops at the first error. Each element of
/// `users` holds the lexicons of one user dictionary.
pub(crate) fn user_dicts(
    alloc: Global,
    system: &Dict,
    users: &[&[&[u8]]],
) -> Result<Vec<Dict>, RunFault>
    requires { (image_tables system.now).kind ≡ System }
    ensures dicts { IfOk result (λ dicts.
        AllZip (IsUserDictOf (image_tables system.now)) (users_of users.now) dicts.items) }
    ensures rejected { IfErr result (IsUsersError (image_tables system.now) (users_of users.now)) }
    ensures first { (i : ℕ) (fault : FaultOf)
        → IsOfUser (IsUserFault (image_tables system.now)) (image_tables system.now)
        (users_of users.now) i fault
        → IsRejectedFor (UserSource i fault) result }
{
    let mut dicts = Vec::new(alloc);
    for (i, lexicons) in users.iter().enumerate() {
        let dict = match user_dict(alloc, system, lexicons) {
            Ok(dict) => dict,
            Err(fault) => return Err(run_fault_of(fault, RunFault::UserSource(i, fault))),
        };
        if add(&mut dicts, dict).is_err() {
            return Err(RunFault::Memory(0));
        }
    }
    Ok(dicts)
}

/// Appends a dictionary.
fn add(dicts: &mut Vec<Dict>, dict: Dict) -> Result<(), AllocError>
    ensures { OnOk result (dicts.new.items ≡ dicts.old.items ++ dict ∷ []) }
{
    dicts.push(dict)?;
    Ok(())
}

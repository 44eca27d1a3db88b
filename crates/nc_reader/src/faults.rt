//! Of the faults of a file, the one with the lowest line.

ghost use Rattle.std.specs.Prelude.{◌≡◌, List, ◌++◌, ◌∷◌, [], Some, OnOk};
ghost use Rattle.nc_types.specs.declared.fault.Fault.{Fault};
ghost use Rattle.nc_types.specs.Faults.{lowest};
ghost use Rattle.nc_reader.specs.Parts.{Notes};

use nc_types::{ConfigFault, Fault};
use std::alloc::AllocError;

/// Of the faults so far and one more, the one with the lowest line.
pub(crate) fn lowest_of(told: Option<Fault>, fault: Fault) -> Fault
    ensures { (fs : List Fault) → told ≡ lowest fs → lowest (fs ++ fault ∷ []) ≡ Some result }
{
    let Some(first) = told else {
        return fault;
    };
    if first.line <= fault.line {
        return first;
    }
    fault
}

/// Notes the fault of one more part. The error is want of memory.
pub(crate) fn note(told: &mut Option<Fault>, fault: ConfigFault) -> Result<(), AllocError>
    ensures { OnOk result (Notes fault told.old told.new) }
{
    let ConfigFault::Bad { line, cause } = fault else {
        return Err(AllocError);
    };
    *told = Some(lowest_of(*told, Fault { line, cause }));
    Ok(())
}

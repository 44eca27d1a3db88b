//! The configuration of a file, from its parts.

ghost use Rattle.std.specs.Prelude.{IfOk};
ghost use Rattle.nc_types.specs.Config.{config_view};
ghost use Rattle.nc_types.specs.WellFormed.{IsWellFormed};
ghost use Rattle.nc_reader.specs.Configuration.{configuration};
ghost use Rattle.nc_reader.specs.Outcome.{IsConfiguration};
ghost use Rattle.nc_reader.specs.Whole.{AreParts};

use crate::laws::{configurations_are_well_formed, elements_are_few};
use crate::order::arrange;
use crate::parts::{Parts, read_parts};
use nc_lines::Lines;
use nc_types::{Cause, ConfigFault, RouterConfig};
use std::alloc::Global;

// Puts the parts of a file in order, where nothing is wrong with them.
fn finish(alloc: Global, lines: &Lines, parts: Parts) -> Result<RouterConfig, ConfigFault>
    requires { AreParts lines.now parts }
    ensures read { IsConfiguration result (configuration lines.now) }
    ensures well_formed { IfOk result (λ c. IsWellFormed (config_view c)) }
{
    configurations_are_well_formed();
    elements_are_few();
    let Parts { name, made, fault } = parts;
    if let Some(fault) = fault {
        return Err(ConfigFault::Bad {
            line: fault.line,
            cause: fault.cause,
        });
    }
    let Some((name_line, name)) = name else {
        return Err(ConfigFault::Bad {
            line: 0,
            cause: Cause::NoName,
        });
    };
    let count = lines.count();
    let (things, elements) = arrange(alloc, count, made)?;
    Ok(RouterConfig {
        name,
        name_line,
        line_count: count,
        elements,
        interfaces: things.interfaces,
        statics: things.statics,
        process: things.process,
        clauses: things.clauses,
        lists: things.lists,
        community_lists: things.community_lists,
        filters: things.filters,
        groups: things.groups,
    })
}

/// The configuration of a router, from the lines of its file. It is well formed.
///
/// # Errors
///
/// The lowest faulty line with its cause, or line 0 where no line is faulty and none names the
/// router; memory that runs out on the way to it.
pub fn read_config(alloc: Global, lines: &Lines) -> Result<RouterConfig, ConfigFault>
    ensures read { IsConfiguration result (configuration lines.now) }
    ensures well_formed { IfOk result (λ c. IsWellFormed (config_view c)) }
{
    let parts = read_parts(alloc, lines)?;
    let config = finish(alloc, lines, parts)?;
    Ok(config)
}

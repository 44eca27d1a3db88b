//! How times are told.

use anyhow::Result;

/// Tells how long something took, in this unit.
pub fn tell_time(rt: &HostRuntime, name: &str, unit: &str, amount: u128) -> Result<()> {
    eprintln!(rt; "{name}: {unit} {amount}")?;
    Ok(())
}

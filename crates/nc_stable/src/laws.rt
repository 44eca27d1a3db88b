//! What follows from the definition of the stable state alone.

ghost use Rattle.std.specs.Prelude.{◌≡◌, ◌≤◌, ℕ, List, Some, length};
ghost use Rattle.nc_types.specs.declared.TheConstants.{ROUTER_LIMIT};
ghost use Rattle.nc_types.specs.Config.{ConfigView};
ghost use Rattle.nc_types.specs.Joining.{IsValid};
ghost use Rattle.nc_tables.specs.State.{StateView, IsState};
ghost use Rattle.nc_tables.specs.Settling.{settled};

/// What routers settle in is a state of theirs, if they are valid together and no more than a network
/// may have. It does nothing: a caller that needs the law calls it.
pub fn settled_states_are_states()
    ensures { (routers : List ConfigView) (rounds : ℕ) (s : StateView) → IsValid routers
        → length routers ≤ ROUTER_LIMIT → settled rounds routers ≡ Some s → IsState s }
{}

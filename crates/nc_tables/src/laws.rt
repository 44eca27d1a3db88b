//! The laws of reach, of forwarding and of the stable state.

ghost use Rattle.std.specs.Prelude.{◌≡◌, ◌<◌, ℕ, List, Some, length, MatchOption};
ghost use Rattle.nc_types.specs.Config.{ConfigView};
ghost use Rattle.nc_tables.specs.declared.TheConstants.{EXTERNAL_DISTANCE, INTERNAL_DISTANCE, LOCAL_DISTANCE};
ghost use Rattle.nc_tables.specs.declared.base.BaseRow.{BaseRow};
ghost use Rattle.nc_tables.specs.declared.bgp.SessionRow.{SessionRow};
ghost use Rattle.nc_tables.specs.declared.bgp.MainRow.{MainRow};
ghost use Rattle.nc_tables.specs.Reach.{reaches};
ghost use Rattle.nc_tables.specs.Rounds.{BgpRowView, IsStable, IsUnstable};
ghost use Rattle.nc_tables.specs.Forwarding.{traces, all_trace};
ghost use Rattle.nc_tables.specs.Levels.{is_in, reach_level, trace_level, all_trace_level};
ghost use Rattle.nc_tables.specs.Settling.{settled_table};

/// Of a router with a number below that of the routers, reach and forwarding are told by levels. It does
/// nothing: a caller that needs a law calls it.
pub fn levels_are_lawful()
    // An address is reached over so many hops from the routers of that level.
    ensures reach { (routers : List ConfigView) (tables : List (List BaseRow)) (hops router addr : ℕ)
        → router < length routers
        → reaches routers tables hops router addr
        ≡ is_in (reach_level routers tables addr hops) router }

    // So is a packet led there by some way.
    ensures trace { (routers : List ConfigView) (tables : List (List BaseRow))
        (table : List (List BgpRowView)) (mains : List (List MainRow)) (hops router addr : ℕ)
        → router < length routers
        → traces routers tables table mains hops router addr
        ≡ is_in (trace_level routers tables table mains addr hops) router }

    // And by each way.
    ensures all_trace { (routers : List ConfigView) (tables : List (List BaseRow))
        (table : List (List BgpRowView)) (mains : List (List MainRow)) (hops router addr : ℕ)
        → router < length routers
        → all_trace routers tables table mains hops router addr
        ≡ is_in (all_trace_level routers tables table mains addr hops) router }
{}

/// The stable table that is computed is the one that is defined. It does nothing, as above.
pub fn settling_is_lawful()
    // Over so many rounds the stable table is found, or the network is unstable.
    ensures found { (routers : List ConfigView) (tables : List (List BaseRow))
        (sessions : List (List SessionRow)) (rounds : ℕ)
        → MatchOption (settled_table routers tables sessions rounds)
        (IsUnstable routers tables sessions rounds) (IsStable routers tables sessions rounds) }

    // Each stable table is found.
    ensures stable { (routers : List ConfigView) (tables : List (List BaseRow))
        (sessions : List (List SessionRow)) (rounds : ℕ) (table : List (List BgpRowView))
        → IsStable routers tables sessions rounds table
        → settled_table routers tables sessions rounds ≡ Some table }
{}

/// The law of the distances: each that stands in the code under a name is the one that is meant. It does nothing.
pub fn distances_are_numbers()
    ensures external { EXTERNAL_DISTANCE ≡ 20 }
    ensures internal { INTERNAL_DISTANCE ≡ 200 }
    ensures local { LOCAL_DISTANCE ≡ 200 }
{}

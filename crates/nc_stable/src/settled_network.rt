//! What settling makes.

ghost use Rattle.nc_policy.specs.Indexes.{ArePolicies};

use nc_policy::Policies;
use nc_tables::Stable;

/// A network that settled: its state, and the tables of the maps of its routers. The tables are
/// those of the state's routers.
#[derive(Drop)]
pub struct SettledNetwork {
    pub state: Stable,
    pub policies: Policies,
    ghost tables: { ArePolicies state.routers policies },
}

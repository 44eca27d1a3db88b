//! Why facts could not be added to a graph.
ghost use Rattle.std.specs.Prelude.{◌≡◌};
ghost use Rattle.nc_graph.specs.declared.fault.GraphFault.TheVariants.{Memory};

use std::alloc::{AllocError, AllocFailed};
use thiserror::Error;

/// Why facts could not be added. The graph is then as it was before the call.
#[derive(Clone, Copy, Debug, PartialEq, Eq, Error)]
pub enum GraphFault {
    /// The facts would need more nodes than the limit of the graph allows.
    #[error("the graph of facts is full")]
    Full,
    /// There was not enough memory.
    #[error("out of memory")]
    Memory,
}

impl From<AllocError> for GraphFault {
    ghost from_gives = { λ _ e. e ≡ Memory };

    fn from(_error: AllocError) -> GraphFault {
        GraphFault::Memory
    }
}

impl<T: Drop> From<AllocFailed<T>> for GraphFault {
    ghost from_gives = { λ _ e. e ≡ Memory };

    fn from(_error: AllocFailed<T>) -> GraphFault {
        GraphFault::Memory
    }
}

use nc_engine::Engine;
use std::mem;

/// What a process does behind a run. By it the memory of the network, and of all that is known of it, is given back
/// or left. No byte that is written, no status and no object of the outside depends on it.
#[derive(Clone, Copy, PartialEq, Eq)]
pub enum Afterwards {
    /// It ends. What a run has taken stays taken until then, for giving it back piece by piece takes time, up to a tenth
    /// of a run.
    Ends,
    /// It goes on, so that the memory is given back.
    GoesOn,
}

/// Lets an engine go, and gives its memory back where the process goes on.
pub(crate) fn let_go(engine: Engine, afterwards: Afterwards) {
    match afterwards {
        Afterwards::Ends => mem::forget(engine),
        Afterwards::GoesOn => drop(engine),
    }
}

use crate::names::Names;
use nc_types::{TestCommand, Text};

/// What a line of a session asks.
#[derive(Drop)]
pub enum Command {
    /// A test, for facts of the network.
    Test(TestCommand),
    /// That the test of this number counts no longer.
    Forget(u32),
    /// Whether the test of the first number implies that of the second.
    Implies(u32, u32),
    /// A least set of elements without which the test of this number isn't carried, none of them of the
    /// routers of these names.
    Cut(u32, Names),
    /// A listing of the file of the router of this name, with the mark of each line.
    Show(Text),
    /// An LCOV tracefile of all files.
    Lcov,
    /// The marks of all lines as a JSON object.
    Json,
    /// Tests of which none can be left out, and which mark each element as all tests do.
    Suite,
    /// The elements on which nothing rests that the network does.
    Dead,
    /// That the session ends.
    Quit,
}

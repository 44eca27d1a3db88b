//! Names of routers that stand in a command.

ghost use Rattle.std.specs.Prelude.{◌≡◌, []};

use nc_types::Text;
use std::alloc::Global;
use std::marker::Model;

/// Names of routers, in the order in which they stand; a name may stand twice.
#[derive(Drop)]
pub struct Names {
    pub(crate) names: Vec<Text>,
}

impl Model for Names {
    ghost use Rattle.std.specs.Prelude.{List, ℕ};

    ghost Value = { List (List ℕ) };

    ghost view = { λ n. n.names.items };
}

impl Names {
    /// No names. Takes no memory.
    pub fn none(alloc: Global) -> Names
        ensures { result ≡ [] }
    {
        Names {
            names: Vec::new(alloc),
        }
    }

    /// The names, in order.
    pub fn list(&self) -> &[Text]
        ensures { result.now ≡ self.now }
    {
        &self.names
    }
}

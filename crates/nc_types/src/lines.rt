//! The lines of an element.

ghost use Rattle.std.specs.Prelude.{◌≡◌, ◌∷◌, [], IfOk};

use std::alloc::{AllocError, Global};
use std::marker::Model;

// How many lines take no memory of their own. With more, each element would take more.
const FEW: usize = 3;

// Few lines, so many of the array, or more.
#[derive(Drop)]
enum Held {
    Few(u8, [u32; FEW]),
    Many(Box<Vec<u32>>),
}

/// The lines of an element, from 1. Most elements have few, so up to three take no memory of their
/// own.
#[derive(Drop)]
pub struct Lines {
    held: Held,
}

impl Model for Lines {
    ghost use Rattle.std.specs.Prelude.{List, ℕ};
    ghost use Rattle.nc_types.specs.ElementLines.{held_lines, IsHeld};

    ghost Value = { List ℕ };

    ghost view = { λ l. held_lines l.held };

    ghost invariant = { λ l. IsHeld l.held };
}

impl Lines {
    /// One line. It takes no memory.
    pub fn one(line: u32) -> Lines
        ensures { result ≡ line ∷ [] }
    {
        Lines {
            held: Held::Few(1, [line, 0, 0]),
        }
    }

    /// These lines.
    ///
    /// # Errors
    ///
    /// Memory that runs out.
    pub fn of(alloc: Global, lines: Vec<u32>) -> Result<Lines, AllocError>
        ensures { IfOk result (λ held. held ≡ lines.items) }
    {
        if lines.len() > FEW {
            return Ok(Lines {
                held: Held::Many(Box::new(alloc, lines)?),
            });
        }
        let mut few = [0; FEW];
        let count = lines.len();
        few[..count].copy_from_slice(&lines);
        Ok(Lines {
            held: Held::Few(count as u8, few),
        })
    }

    /// The lines, one after another.
    pub fn as_slice(&self) -> &[u32]
        ensures { result.now ≡ self.now }
    {
        match &self.held {
            Held::Few(count, lines) => &lines[..*count as usize],
            Held::Many(lines) => lines.as_slice(),
        }
    }
}

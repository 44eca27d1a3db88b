//! The owner of a line, in the room of a number.

ghost use Rattle.std.specs.Prelude.{◌≡◌, ◌<◌, ◌-◌, ◌^◌, None, Some};

use std::marker::Model;

/// The place of the element that has a line, or none.
#[derive(Clone, Copy)]
pub(crate) struct Owner {
    // The place and one, or 0 where there is none: half the room of an option.
    word: u32,
}

impl Model for Owner {
    ghost use Rattle.std.specs.Prelude.{ℕ, ◌+◌, ◌-◌, ◌==◌, Option, None, Some, if◌then◌else◌};
    ghost use Rattle.std.specs.Option.{option_map_or};

    ghost Value = { Option ℕ };

    ghost view = { λ o. if o.word == 0 then None else Some (o.word - 1) };

    ghost inverse = { λ v. record { word = option_map_or (λ place. place + 1) v 0 } };
}

impl Owner {
    /// No element.
    pub(crate) fn none() -> Owner
        ensures { result ≡ None }
    {
        Owner { word: 0 }
    }

    /// The element at a place.
    pub(crate) fn of(place: u32) -> Owner
        requires { place < 2 ^ 32 - 1 }
        ensures { result ≡ Some place }
    {
        Owner { word: place + 1 }
    }

    /// The place.
    pub(crate) fn place(self) -> Option<u32>
        ensures { result ≡ self }
    {
        if self.word == 0 {
            None
        } else {
            Some(self.word - 1)
        }
    }
}

//! Two lines that don't go together, and which of two such pairs comes first.

ghost use Rattle.std.specs.Prelude.{◌≡◌, Some};
ghost use Rattle.nc_types.specs.Joining.{before_or, is_before};
ghost use Rattle.nc_network.specs.Steps.{merge};

use std::marker::Model;

/// Two lines that don't go together, each with the number of its router, from 0.
#[derive(Clone, Copy)]
pub(crate) struct LinePair {
    pub(crate) first: u32,
    pub(crate) first_line: u32,
    pub(crate) second: u32,
    pub(crate) second_line: u32,
}

/// A line of a router.
#[derive(Clone, Copy)]
pub(crate) struct Place {
    pub(crate) router: u32,
    pub(crate) line: u32,
}

impl Model for LinePair {
    ghost use Rattle.nc_types.specs.Joining.{Clash};

    ghost Value = { Clash };

    ghost view = { λ p. record {
      first = p.first;
      first_line = p.first_line;
      second = p.second;
      second_line = p.second_line;
    } };

    ghost inverse = { λ v. record {
      first = v.first;
      first_line = v.first_line;
      second = v.second;
      second_line = v.second_line;
    } };
}

// Whether a number is the lower one, or both are equal and what comes behind them is in order.
pub(crate) fn before_or_equal(number: u32, other: u32, behind: bool) -> bool
    ensures { result ≡ before_or number other behind }
{
    number < other || (number == other && behind)
}

impl LinePair {
    // Whether this pair comes first.
    fn is_before(self, other: LinePair) -> bool
        ensures { result ≡ is_before self other }
    {
        let second = before_or_equal(
            self.second,
            other.second,
            self.second_line < other.second_line,
        );
        let line = before_or_equal(self.first_line, other.first_line, second);
        before_or_equal(self.first, other.first, line)
    }
}

/// The earlier of what was found so far and another pair.
pub(crate) fn earlier_of(found: Option<LinePair>, other: LinePair) -> Option<LinePair>
    ensures { result ≡ merge found (Some other) }
{
    match found {
        None => Some(other),
        Some(pair) => {
            if other.is_before(pair) {
                Some(other)
            } else {
                Some(pair)
            }
        }
    }
}

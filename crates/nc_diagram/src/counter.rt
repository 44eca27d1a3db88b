// The greatest set that tells one function from another.

ghost use Rattle.std.specs.Prelude.{◌≡◌, ◌≤◌, ◌⊎◌, [], false, min, IfOk, IsErrOf, MatchOption};
ghost use Rattle.std.specs.List.Sorted.{IsStrictlyIncreasing};
ghost use Rattle.indexmap.specs.IndexSet.{contains};
ghost use Rattle.nc_diagram.specs.declared.apply.Pair.{Pair};
ghost use Rattle.nc_diagram.specs.Sets.{all_but};
ghost use Rattle.nc_diagram.specs.Diagrams.{Belongs, meaning, level};
ghost use Rattle.nc_diagram.specs.Counter.{Implies, IsGreatest, IsEndAt};
ghost use Rattle.nc_diagram.specs.Operations.{BothBelong, pair_eq};
ghost use Rattle.nc_diagram.specs.Search.{AreEndsAt, Looks, low_variables};

use crate::apply::Pair;
use crate::fault::StoreFault;
use crate::node::Ref;
use crate::store::Store;
use indexmap::IndexSet;
use std::alloc::{AllocError, Global};

/// A pair of references whose ends are searched: the high ones, while the low ones wait, or the low
/// ones, since no set was found by the high ones.
#[derive(Clone, Copy)]
pub(crate) enum Turn {
    High {
        pair: Pair,
        variable: u32,
        low: Pair,
    },
    Low {
        pair: Pair,
        variable: u32,
    },
}

/// What the search is at: a pair to look at, a pair whose functions no set tells apart, or the end,
/// where one is true and the other false.
#[derive(Clone, Copy)]
pub(crate) enum Search {
    Look(Pair),
    Barren(Pair),
    Found,
}

// The variables at which the search went on with the low ends, in its order.
fn low_variables(alloc: Global, turns: &[Turn]) -> Result<Vec<u32>, AllocError>
    ensures { IfOk result (λ missing. missing.items ≡ low_variables turns.now) }
{
    let mut missing = Vec::new(alloc);
    'turns: for turn in turns {
        match *turn {
            Turn::High { .. } => {}
            Turn::Low { variable, .. } => missing.push(variable)?,
        }
    }
    Ok(missing)
}

impl Store {
    /// None where every set with a true has b true. Else the variables, ascending, that are missing in
    /// the greatest set with a true and b false; of two sets that one is greater which has the lowest
    /// variable in which they differ. The store stays as it is. `Memory` comes where none is found, and
    /// `Full` never. No pair of references is looked into twice.
    pub fn counter(&mut self, a: Ref, b: Ref) -> Result<Option<Vec<u32>>, StoreFault>
        requires left { Belongs self.old.nodes a }
        requires right { Belongs self.old.nodes b }
        ensures answers { IfOk result (λ o. MatchOption o
            (Implies (meaning self.old.nodes a) (meaning self.old.nodes b))
            (λ missing. IsStrictlyIncreasing missing.items
            × IsGreatest (meaning self.old.nodes a) (meaning self.old.nodes b) (all_but missing.items))) }
        ensures unchanged { self.new ≡ self.old }
        ensures never_full { IsErrOf result StoreFault.Full → ⊥ }
    {
        let pair = Pair {
            left: a.0,
            right: b.0,
        };
        match self.greatest(self.alloc, pair) {
            Ok(missing) => Ok(missing),
            Err(_memory) => Err(StoreFault::Memory),
        }
    }

    // What `counter` answers of a pair.
    fn greatest(&self, alloc: Global, pair: Pair) -> Result<Option<Vec<u32>>, AllocError>
        requires { BothBelong self.now.nodes pair }
        ensures { IfOk result (λ o. MatchOption o
            (Implies (meaning self.now.nodes pair.left) (meaning self.now.nodes pair.right))
            (λ missing. IsStrictlyIncreasing missing.items
            × IsGreatest (meaning self.now.nodes pair.left) (meaning self.now.nodes pair.right)
            (all_but missing.items))) }
    {
        let mut turns: Vec<Turn> = Vec::new(alloc);
        let mut barren: IndexSet<Pair> = IndexSet::new(alloc);
        match self.seek(alloc, pair, &mut turns, &mut barren) {
            Ok(missing) => Ok(missing),
            Err(error) => Err(error),
        }
    }

    // The same, by a search of its high ends before its low ones, which begins with no turns and no
    // pair that is known to be barren.
    fn seek(
        &self,
        alloc: Global,
        pair: Pair,
        turns: &mut Vec<Turn>,
        barren: &mut IndexSet<Pair>,
    ) -> Result<Option<Vec<u32>>, AllocError>
        requires pair { BothBelong self.now.nodes pair }
        requires turns { turns.old.items ≡ [] }
        requires barren { (p : Pair) → contains pair_eq barren.old p ≡ false }
        ensures { IfOk result (λ o. MatchOption o
            (Implies (meaning self.now.nodes pair.left) (meaning self.now.nodes pair.right))
            (λ missing. IsStrictlyIncreasing missing.items
            × IsGreatest (meaning self.now.nodes pair.left) (meaning self.now.nodes pair.right)
            (all_but missing.items))) }
    {
        self.checked();
        let mut at = Search::Look(pair);
        'walk: loop {
            at = match at {
                Search::Look(pair) => self.look(pair, turns, barren)?,
                Search::Found => {
                    let missing = low_variables(alloc, turns)?;
                    return Ok(Some(missing));
                }
                Search::Barren(_ends) => match turns.pop() {
                    None => return Ok(None),
                    Some(
                        Turn::High {
                            pair,
                            variable,
                            low,
                        },
                    ) => {
                        turns.push(Turn::Low { pair, variable })?;
                        Search::Look(low)
                    }
                    Some(Turn::Low { pair, .. }) => {
                        barren.insert(pair)?;
                        Search::Barren(pair)
                    }
                },
            };
        }
    }

    // Looks at a pair: whether its references decide it, or it is known that no set tells its
    // functions apart. Else its high ends come next, and the turn is listed.
    fn look(
        &self,
        pair: Pair,
        turns: &mut Vec<Turn>,
        barren: &IndexSet<Pair>,
    ) -> Result<Search, AllocError>
        requires { BothBelong self.now.nodes pair }
        ensures { IfOk result (Looks self.now.nodes (contains pair_eq barren.now) pair
            turns.old.items turns.new.items) }
    {
        if pair.left == 0 || pair.right == 1 || pair.left == pair.right || barren.contains(&pair) {
            return Ok(Search::Barren(pair));
        }
        if pair.left == 1 && pair.right == 0 {
            return Ok(Search::Found);
        }
        let variable = self.top(pair.left, pair.right);
        let low = self.ends_at(pair, variable, false);
        turns.push(Turn::High {
            pair,
            variable,
            low,
        })?;
        Ok(Search::Look(self.ends_at(pair, variable, true)))
    }

    // Both references of a pair on one side of a variable that is not below theirs.
    fn ends_at(&self, pair: Pair, variable: u32, side: bool) -> Pair
        requires belong { BothBelong self.now.nodes pair }
        requires left_above { variable ≤ level self.now.nodes pair.left }
        requires right_above { variable ≤ level self.now.nodes pair.right }
        ensures { AreEndsAt self.now.nodes pair variable side result }
    {
        Pair {
            left: self.end(pair.left, variable, side),
            right: self.end(pair.right, variable, side),
        }
    }

    // The lowest variable that one of two references asks for.
    fn top(&self, p: u32, q: u32) -> u32
        requires node { (2 ≤ p) ⊎ (2 ≤ q) }
        requires left { Belongs self.now.nodes p }
        requires right { Belongs self.now.nodes q }
        ensures { result ≡ min (level self.now.nodes p) (level self.now.nodes q) }
    {
        if p < 2 {
            return self.node(q).variable;
        }
        if q < 2 {
            return self.node(p).variable;
        }
        self.node(p).variable.min(self.node(q).variable)
    }

    // A reference on one side of a variable that is not below its own.
    fn end(&self, place: u32, variable: u32, side: bool) -> u32
        requires belongs { Belongs self.now.nodes place }
        requires above { variable ≤ level self.now.nodes place }
        ensures { IsEndAt self.now.nodes place variable side result }
    {
        self.checked();
        if place < 2 {
            return place;
        }
        let node = self.node(place);
        if node.variable != variable {
            return place;
        }
        if side { node.high } else { node.low }
    }
}

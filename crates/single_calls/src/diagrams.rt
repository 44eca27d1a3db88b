//! Functions of elements, as the store of diagrams has them.

use nc_diagram::{Store, StoreFault};
use std::alloc::{AllocError, Global};

// Whether the conjunction of the elements 0 and 2 is true at a set that has both, and false without one.
fn is_right_at_sets(store: &mut Store) -> Result<bool, StoreFault> {
    let first = store.variable(0)?;
    let second = store.variable(2)?;
    let both = store.and(first, second)?;
    Ok(store.eval(both, &[true, false, true]) && !store.eval(both, &[true, true, false]))
}

// Whether the disjunction of two elements is the same either way round, and another than one of them.
fn is_same_either_way(store: &mut Store) -> Result<bool, StoreFault> {
    let first = store.variable(0)?;
    let second = store.variable(2)?;
    let here = store.or(first, second)?;
    let there = store.or(second, first)?;
    Ok(store.equal(here, there) && !store.equal(here, first))
}

// An answer, where the store had room for it.
fn answer(made: Result<bool, StoreFault>) -> Result<bool, AllocError> {
    match made {
        Ok(is_right) => Ok(is_right),
        Err(StoreFault::Full) => Ok(false),
        Err(StoreFault::Memory) => Err(AllocError),
    }
}

/// The value of a conjunction at two sets.
///
/// # Errors
///
/// Memory that runs out.
pub fn evaluates(alloc: Global) -> Result<bool, AllocError> {
    let mut store = Store::new(alloc, 100);
    answer(is_right_at_sets(&mut store))
}

/// A disjunction that is made twice.
///
/// # Errors
///
/// Memory that runs out.
pub fn are_equal(alloc: Global) -> Result<bool, AllocError> {
    let mut store = Store::new(alloc, 100);
    answer(is_same_either_way(&mut store))
}

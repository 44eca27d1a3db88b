//! Least cuts of functions of sets of variables: the fewest variables, of those that are free, without
//! which a function is false. It stands on `nc_diagram` alone, whose diagrams are the functions, and on
//! nothing that knows of networks.
//!
//! The contracts promise that what `least_cut` answers is a cut, that no cut has fewer variables, that
//! of those with as few it is the first, the ascending lists compared place by place, and that none
//! comes just where there is no cut. A diagram is walked once for the sizes of the least cuts of its
//! nodes, the ends before the node, and once from the top down for the cut. The sizes stand by place in
//! pages of 256, which are made as their places are reached. So both take time and memory for the nodes
//! that are reached, no more than a page for each, and for a number that tells where a page starts for
//! each 256 places up to the reference, whatever else the store holds. Where it is known of which
//! variables each alone is a cut, no diagram is walked: `first_free` answers the first of them that is
//! free, which is the least cut by a law of `laws`.
#![tactic(auto)]

mod cut;
mod first;
mod laws;
mod pages;
mod sizes;

pub use cut::least_cut;
pub use first::first_free;
pub use laws::{
    law_of_cuts_or_none, law_of_no_variable_kept, law_of_one_least_cut, law_of_one_variable,
    law_of_same_functions,
};

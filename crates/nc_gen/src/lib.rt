//! Generated networks: the configuration files of a fat tree, and a session that asks for paths
//! through it.
//!
//! A fat tree of k pods has k routers a pod, in two layers, and (k / 2)² cores above them; all
//! speak BGP, each with a system of its own, and each edge router has a local network (the topology
//! is that of Al-Fares, Loukissas and Vahdat, 'A scalable, commodity data center network
//! architecture', 2008, without the hosts). The crate stands on `nc_types`. Its contract promises
//! that [`fat_tree`] gives the files and the session of the definition in `specs/Files`, byte for
//! byte.
#![tactic(auto)]

mod config;
mod generated;
mod ports;
mod text;
mod tree;

pub use generated::{GenFile, Generated, fat_tree, is_size};

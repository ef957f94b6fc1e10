//! Tests of processes, with values from outside: of nodes, worlds and desks, and one run of each call of these that takes memory; of ports on a bus, of
//! shared ports, and of jobs of ranks in threads. They stand in a crate of their own, so that the crates below are proved once. Functions with many
//! exits own no node, world, desk or port, since each exit of a function walks the drop of all that it owns.
#![tactic(auto)]

#[cfg(test)]
mod boards;
#[cfg(test)]
mod calls;
#[cfg(test)]
mod desk_rows;
#[cfg(test)]
mod desks;
#[cfg(test)]
mod had;
#[cfg(test)]
mod job_sizes;
#[cfg(test)]
mod jobs;
#[cfg(test)]
mod let_go;
#[cfg(test)]
mod looks;
#[cfg(test)]
mod node_rows;
#[cfg(test)]
mod port_fleets;
#[cfg(test)]
mod port_rows;
#[cfg(test)]
mod ports;
#[cfg(test)]
mod posts_beside_gossip;
#[cfg(test)]
mod questions;
#[cfg(test)]
mod queue_steps;
#[cfg(test)]
mod settling_rows;
#[cfg(test)]
mod shared_pairs;
#[cfg(test)]
mod world_rows;
#[cfg(test)]
mod worlds;

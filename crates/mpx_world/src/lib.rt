//! All processes together: a world, the events that lead from one to the next, and what is so after every list of events.
//!
//! In the order of reading: [`Event`] with its [`Cut`] and [`Reply`], [`JobOperations`], [`World`] with [`Stopped`], and the laws
//! [`every_world_is_sound`], [`completed_results_are_permanent`], [`processes_agree_at_any_time`],
//! [`what_all_acknowledge_all_have`], [`freed_contexts_stay_dead`], [`nodes_are_of_one_world`], [`every_history_is_sound`],
//! [`every_history_keeps_its_parts`] and [`what_may_be_opened_and_dropped`];
//! for nodes of one's own [`networks_begin`], [`networks_go_on`] and [`networks_are_sound`]; and for all of these
//! [`one_part_of_each_is_enough`].
//! Contracts see a world as its processes and the parts that they sent (`specs/Worlds.antt`); what is sound is said in
//! `specs/Soundness.antt`, what an event comes to and is answered in `specs/Events.antt`, what a network is in
//! `specs/Networks.antt`, and what is enough in `specs/Enough.antt`.
#![tactic(auto)]

mod enough;
mod events;
mod job_operations;
mod laws;
mod networks;
mod processes;
mod world;

pub use enough::one_part_of_each_is_enough;
pub use events::{Cut, Event, Names, Reply, Stopped};
pub use job_operations::JobOperations;
pub use laws::{
    completed_results_are_permanent, every_history_is_sound, every_history_keeps_its_parts,
    every_world_is_sound, freed_contexts_stay_dead, nodes_are_of_one_world,
    processes_agree_at_any_time, what_all_acknowledge_all_have, what_may_be_opened_and_dropped,
};
pub use networks::{networks_are_sound, networks_begin, networks_go_on};
pub use world::World;

//! How many bytes entries have at least in a frame, counted without memory. It only saves copies of runs that are surely too
//! long, and nothing that is proved rests on it: whether a run is short is told by its frame.

use join_core::Flat;
use join_nest::Lift;
use mpx_birth::Birth;
use mpx_board::{CallPosts, Digest, Entry, Lifted, VersionVector};
use mpx_group::Proc;
use mpx_name::{Name, Step};
use mpx_post::Post;

// How many bytes a process with its number has.
const NUMBER: usize = 5;

// A step to a child.
const CHILD: usize = 9;

// A step to a gathering, without its members.
const GATHERING: usize = 4;

// What one process acknowledges, without the contexts.
const ACKS: usize = 3;

// Whether a context is live.
const LIFTED: usize = 1;

// At least, a live context without its name, its fronts and its calls.
const ENTRY: usize = 10;

// At least, a call without its posts.
const CALL: usize = 5;

// At least, a process with its post.
const POST: usize = 3;

// What these contexts leave of the room, at most.
pub fn room_after_contexts(mut room: usize, contexts: &[(Name, Lifted)]) -> usize {
    for (name, known) in contexts {
        if room == 0 {
            return 0;
        }
        room = after_name(room, name);
        room = after_context(room, known);
    }
    room
}

// What is left of it behind what these processes acknowledge.
pub fn room_after_acks(mut room: usize, processes: &[(Proc, Digest)]) -> usize {
    for (_, acks) in processes {
        room = after(room, 1, ACKS);
        room = room_after_names(room, acks.entries());
    }
    room
}

// Behind what one process acknowledges of these contexts.
pub fn room_after_names(mut room: usize, names: &[(Name, VersionVector)]) -> usize {
    for (name, numbers) in names {
        if room == 0 {
            return 0;
        }
        room = after_name(room, name);
        room = after(room, 1, 1);
        room = after(room, numbers.len(), NUMBER);
    }
    room
}

// Behind so many parts of so many bytes.
fn after(room: usize, parts: usize, bytes: usize) -> usize {
    room.saturating_sub(parts.saturating_mul(bytes))
}

// Behind a name: how many steps it has, and these.
fn after_name(room: usize, name: &Name) -> usize {
    let mut room = after(room, 1, 1);
    for step in name.steps() {
        room = after_step(room, step);
    }
    room
}

fn after_step(room: usize, step: &Step) -> usize {
    match step {
        Step::Child { .. } => after(room, 1, CHILD),
        Step::Gathering { members, .. } => {
            after(after(room, 1, GATHERING), members.members().len(), 1)
        }
    }
}

// Behind what is known of a context.
fn after_context(room: usize, known: &Lifted) -> usize {
    let room = after(room, 1, LIFTED);
    match known {
        Lift::Live(entry) => after_entry(room, entry),
        Lift::Dead => room,
    }
}

// Behind what is known of a live one.
fn after_entry(room: usize, entry: &Entry) -> usize {
    let mut room = after(room, 1, ENTRY);
    if let Flat::Known(birth) = &entry.first {
        room = after_birth(room, birth);
    }
    room = after(room, entry.second.first.len(), NUMBER);
    for (_, posts) in entry.second.second.entries() {
        room = after_call(room, posts);
    }
    room
}

// Behind a birth: its members, and the neighbours of each rank.
fn after_birth(room: usize, birth: &Birth) -> usize {
    let mut room = after(room, birth.members().len(), 1);
    if let Some(topology) = birth.topology() {
        let bytes = if topology.weighted() { 5 } else { 1 };
        for rank in 0..64 {
            room = after(room, topology.sources(rank).len(), bytes);
            room = after(room, topology.destinations(rank).len(), bytes);
        }
    }
    room
}

// Behind a call.
fn after_call(room: usize, posts: &CallPosts) -> usize {
    let mut room = after(room, 1, CALL);
    for (_, post) in posts.entries() {
        room = after(room, 1, POST);
        if let Flat::Known(post) = post {
            room = after_lists(room, post);
        }
    }
    room
}

// Behind the lists of a post.
fn after_lists(room: usize, post: &Post) -> usize {
    let room = after(room, post.scounts().as_slice().len(), 2);
    let room = after(room, post.rcounts().as_slice().len(), 2);
    let room = after(room, post.group().len(), 1);
    let room = after(room, post.edges().len(), 2);
    let room = after(room, post.sources().len(), 1);
    let room = after(room, post.destinations().len(), 1);
    match post.items() {
        None => room,
        Some(items) => after(room, items.bytes().len(), 1),
    }
}

//! A number of 64 bits made from what a board says: to guess whether it has changed, and whether boards say the same. Boards that say the same
//! give the same number, others may too. Nothing is proved of it.
use join_core::Pair;
use join_nest::Lift;
use mpx_board::{Board, CallPosts, Digest, Entry, Lifted, VersionVector, is_told};
use mpx_group::Proc;
use mpx_name::{Name, Step};

/// The fingerprint of all that a board says. A post counts by its place: a process posts a call once.
pub(crate) fn fingerprint(board: &Board) -> u64 {
    let Pair { first, second } = board.pair();
    let mut all = 0;
    for (name, known) in first.entries() {
        all = follow(all, follow(of_name(name), of_lifted(known)));
    }
    for (process, acks) in second.entries() {
        all = follow(all, follow(u64::from(process.number()), of_acks(acks)));
    }
    all
}

fn of_acks(acks: &Digest) -> u64 {
    let mut all = 1;
    for (name, numbers) in acks.entries() {
        all = follow(all, follow(of_name(name), of_numbers(numbers)));
    }
    all
}

fn of_lifted(known: &Lifted) -> u64 {
    match known {
        Lift::Live(entry) => of_entry(entry),
        Lift::Dead => 5,
    }
}

fn of_entry(entry: &Entry) -> u64 {
    let posts = &entry.second.second;
    let mut all = follow(u64::from(posts.dropped()), u64::from(is_told(&entry.first)));
    all = follow(all, of_numbers(&entry.second.first));
    for (call, made) in posts.entries() {
        all = follow(all, follow(u64::from(*call), of_call(made)));
    }
    all
}

fn of_call(made: &CallPosts) -> u64 {
    let mut all: u64 = 2;
    for (process, _post) in made.entries() {
        all = all.wrapping_add(of_number(*process, 1));
    }
    all
}

// Numbers of several processes are most of a board: so none of them waits for the one before.
fn of_numbers(numbers: &VersionVector) -> u64 {
    let mut all: u64 = 3;
    for (process, number) in numbers.entries() {
        all = all.wrapping_add(of_number(*process, number.0));
    }
    all
}

fn of_number(process: Proc, number: u32) -> u64 {
    spread(u64::from(process.number()) << 32 | u64::from(number))
}

fn of_name(name: &Name) -> u64 {
    let mut all = 4;
    for step in name.steps() {
        all = follow(all, of_step(step));
    }
    all
}

fn of_step(step: &Step) -> u64 {
    match step {
        Step::Child { call, colour } => follow(u64::from(*call), u64::from(*colour)),
        Step::Gathering { tag, members } => {
            let mut all = u64::from(*tag);
            for process in members.members() {
                all = follow(all, u64::from(process.number()));
            }
            all
        }
    }
}

// The next number behind some.
fn follow(all: u64, next: u64) -> u64 {
    spread(all.wrapping_mul(3) ^ next)
}

// Each bit of the number changes about half of the bits.
fn spread(number: u64) -> u64 {
    let once = (number ^ number >> 31).wrapping_mul(0x9e37_79b9_7f4a_7c15);
    (once ^ once >> 29).wrapping_mul(0xbf58_476d_1ce4_e5b9)
}

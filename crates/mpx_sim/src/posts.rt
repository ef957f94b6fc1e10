//! The posts of a run's rank, for an observer.

use crate::observer::Observer;
use join_core::{Exact, OutOfMemory};
use mpx_name::Name;
use mpx_statement::Statement;
use std::alloc::Global;

// A call that was posted, and the place of its statement among its rank's, from 0 on.
#[derive(Drop)]
struct Post {
    name: Name,
    call: u32,
    statement: usize,
}

/// Where posts are followed: the places of a rank's posting statements, and the posts that were made; whether memory for any of that was refused. How many
/// were tried.
#[derive(Drop)]
pub(crate) struct Posts {
    places: Vec<usize>,
    tried: usize,
    made: Vec<Post>,
    lost: bool,
}

impl Posts {
    /// None was tried yet, of a rank with these statements.
    pub(crate) fn new(alloc: Global, statements: &[Statement], is_followed: bool) -> Posts {
        let mut places = Vec::new(alloc);
        let lost = is_followed && push_places(statements, &mut places).is_err();
        Posts {
            places,
            tried: 0,
            made: Vec::new(alloc),
            lost,
        }
    }

    /// One more is tried.
    pub(crate) fn tries(&mut self) {
        self.tried = self.tried.saturating_add(1);
    }

    /// The one that was tried last was made: this call. Where posts aren't followed it isn't noted; where memory for it is refused, that is.
    pub(crate) fn note(&mut self, alloc: Global, name: &Name, call: u32) {
        let nth = self.tried.saturating_sub(1);
        let Some(place) = self.places.get(nth) else {
            return;
        };
        let statement = *place;
        if self.push(alloc, name, call, statement).is_err() {
            self.lost = true;
        }
    }

    // Adds a post.
    fn push(
        &mut self,
        alloc: Global,
        name: &Name,
        call: u32,
        statement: usize,
    ) -> Result<(), OutOfMemory> {
        let name = name.copy(alloc)?;
        self.made.push(Post {
            name,
            call,
            statement,
        })?;
        Ok(())
    }

    /// How many are noted.
    pub(crate) fn count(&self) -> usize {
        self.made.len()
    }

    /// Reports those from this number on, in a turn, of this rank, and whether memory for one was refused.
    pub(crate) fn tell(&self, from: usize, turn: u32, rank: u8, observer: &mut dyn Observer) {
        for post in self.made.get(from..).unwrap_or(&[]) {
            observer.posted(turn, rank, &post.name, post.call, post.statement);
        }
        if self.lost {
            observer.missed();
        }
    }
}

// Adds the places of the statements that post.
fn push_places(statements: &[Statement], places: &mut Vec<usize>) -> Result<(), OutOfMemory> {
    for place in 0..statements.len() {
        if matches!(statements[place], Statement::Post(_)) {
            places.push(place)?;
        }
    }
    Ok(())
}

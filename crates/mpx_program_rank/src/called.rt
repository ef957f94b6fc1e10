//! Which call an error is of, and the number that a refusal is of.
use mpx_group::Proc;
use mpx_name::{Name, Step};
use std::fmt;

/// A call: its name, and its number on its communicator. It prints as `call 3 of world, allreduce`.
#[derive(Debug, Drop)]
pub struct Called {
    pub name: &'static str,
    pub call: u32,
    /// The communicator; none where memory was short for its name.
    pub comm: Option<Name>,
}

impl fmt::Display for Called {
    fn fmt<W: fmt::Write>(&self, f: &mut fmt::Formatter<W>) -> fmt::Result {
        let call = self.call;
        write!(f, "call {call} of ")?;
        match &self.comm {
            Some(name) => write_name(name, f)?,
            None => write!(f, "a communicator")?,
        }
        let name = self.name;
        write!(f, ", {name}")
    }
}

// `world`, and after it for each step `/CALL.COLOUR` of a communicator that a call made, or `/tTAG(RANK,RANK)` of a gathering.
fn write_name<W: fmt::Write>(name: &Name, f: &mut fmt::Formatter<W>) -> fmt::Result {
    write!(f, "world")?;
    for step in name.steps() {
        match step {
            Step::Child { call, colour } => write!(f, "/{call}.{colour}")?,
            Step::Gathering { tag, members } => {
                write!(f, "/t{tag}")?;
                write_members(members.members(), f)?;
            }
        }
    }
    Ok(())
}

fn write_members<W: fmt::Write>(members: &[Proc], f: &mut fmt::Formatter<W>) -> fmt::Result {
    let mut between = "(";
    for member in members {
        let number = member.number();
        write!(f, "{between}{number}")?;
        between = ",";
    }
    write!(f, ")")
}

/// What an error begins with: its call, where it is of one. It prints as that and `: `, or as nothing.
#[derive(Debug, Drop)]
pub struct Place {
    pub called: Option<Called>,
}

impl fmt::Display for Place {
    fn fmt<W: fmt::Write>(&self, f: &mut fmt::Formatter<W>) -> fmt::Result {
        match &self.called {
            Some(called) => write!(f, "{called}: "),
            None => Ok(()),
        }
    }
}

/// The number that a refusal is of, and its limit.
#[derive(Clone, Copy, Debug, PartialEq, Eq)]
pub enum Detail {
    None,
    Root { root: i128, size: u8 },
    Items { given: usize, taken: usize },
    TooMany { given: usize },
    Counts { given: usize, size: u8 },
}

impl fmt::Display for Detail {
    fn fmt<W: fmt::Write>(&self, f: &mut fmt::Formatter<W>) -> fmt::Result {
        match *self {
            Detail::None => Ok(()),
            Detail::Root { root, size } => write!(f, ": root {root} of {size} ranks"),
            Detail::Items { given, taken } => write!(f, ": gave {given} items, {taken} are taken"),
            Detail::TooMany { given } => {
                write!(f, ": gave {given} items, at most 4096 are taken")
            }
            Detail::Counts { given, size } => {
                write!(f, ": gave {given} counts in a communicator of {size} ranks")
            }
        }
    }
}

/// For whose posts a call waits. It prints as `, for ranks 1, 2`, or as nothing where that isn't known.
#[derive(Debug, Drop)]
pub struct Awaited {
    pub ranks: Vec<u8>,
}

impl fmt::Display for Awaited {
    fn fmt<W: fmt::Write>(&self, f: &mut fmt::Formatter<W>) -> fmt::Result {
        let mut between = if self.ranks.len() == 1 {
            ", for the post of rank "
        } else {
            ", for the posts of ranks "
        };
        for &rank in &self.ranks {
            write!(f, "{between}{rank}")?;
            between = ", ";
        }
        Ok(())
    }
}

//! Reading what frames say of contexts.
ghost use Rattle.std.specs.Prelude.{◌≡◌, ◌≢◌, ℕ, IfErr, List, Ok, true};
ghost use Rattle.join_core.specs.Flat.{FlatView};
ghost use Rattle.join_core.specs.FlatSeen.{flat_view};
ghost use Rattle.mpx_post.specs.Posts.{Given};
ghost use Rattle.mpx_board.specs.Parts.{CallView, LiftedView, PartsView, ProgressView};
ghost use Rattle.join_nest.specs.Trunc.{TruncView};
ghost use Rattle.mpx_board.specs.Tidy.{is_silent};
ghost use Rattle.mpx_format.specs.Format.{Gives};
ghost use Rattle.mpx_format.specs.Contexts.{told, posted, call_posts, held, progress, context, lift_form, lifted, parts, says_something};
ghost use Rattle.mpx_format.specs.Fields.{fronts, call, name, name_count};
ghost use Rattle.mpx_format.specs.Rising.{keyed};
ghost use Rattle.mpx_name.specs.Order.{name_cmp};
ghost use Rattle.mpx_board.specs.Views.{view_of_entries};
ghost use Rattle.mpx_decode.specs.Raising.{no_parts};

use crate::acks::read_all_acks;
use crate::big_endian::{read_u8, read_u32};
use crate::entries::{WireKey, WireValue, read_entries};
use crate::fields::{read_call, read_name_count, read_some_byte};
use crate::process_numbers::read_rows;
use join_core::{Exact, Flat, Pair};
use join_nest::{Keyed, Lift, Trunc};
use mpx_birth::Birth;
use mpx_board::{CallPosts, Entry, Lifted, Parts, VersionVector, is_said, is_told};
use mpx_format::{ReadError, Version, out_of_limits};
use mpx_name::Name;
use mpx_post::Post;
use mpx_rope::Source;
use std::alloc::Global;

// A value that is told once.
pub fn read_told<'a, T: WireValue>(
    version: Version,
    source: Source<'a>,
    bytes: &'a [u8],
) -> Result<(Flat<T>, &'a [u8]), ReadError>
    ensures { Gives (λ x. (flat_view T.seen x.0, x.1.now)) result ((told (T.format version)).read bytes.now) }
{
    let (form, rest) = read_u8(bytes)?;
    if form == 0 {
        Ok((Flat::Unknown, rest))
    } else if form == 1 {
        let (value, rest) = T::read(version, source, rest)?;
        Ok((Flat::Known(value), rest))
    } else if form == 2 {
        Ok((Flat::Clash, rest))
    } else {
        Err(out_of_limits(bytes))
    }
}

impl WireValue for Flat<Post> {
    ghost Seen = { FlatView Given };

    ghost seen = { flat_view (λ p. p) };

    ghost format = { posted };

    ghost says = { λ v. true };

    fn says_something(&self) -> bool {
        true
    }

    #[tactic(auto, unfolding(mpx_format::specs::Contexts::posted))]
    fn read<'a>(
        version: Version,
        source: Source<'a>,
        bytes: &'a [u8],
    ) -> Result<(Flat<Post>, &'a [u8]), ReadError> {
        let (posted, rest): (Flat<Post>, &[u8]) = read_told(version, source, bytes)?;
        if is_told(&posted) {
            Ok((posted, rest))
        } else {
            Err(out_of_limits(bytes))
        }
    }
}

impl WireValue for CallPosts {
    ghost Seen = { CallView };

    ghost seen = { ⟦<CallPosts as Exact>⟧.view };

    ghost format = { call_posts };

    ghost says = { λ v. true };

    fn says_something(&self) -> bool {
        true
    }

    #[tactic(auto, unfolding(mpx_format::specs::Contexts::call_posts))]
    fn read<'a>(
        version: Version,
        source: Source<'a>,
        bytes: &'a [u8],
    ) -> Result<(CallPosts, &'a [u8]), ReadError> {
        let (count, rest) = read_some_byte(bytes)?;
        let (entries, rest) = read_entries(version, source, &None, count as usize, rest)?;
        Ok((Keyed::from_rising(entries), rest))
    }
}

#[tactic(auto, unfolding(mpx_format::specs::Fields::fronts))]
fn read_fronts<'a>(
    version: Version,
    source: Source<'a>,
    bytes: &'a [u8],
) -> Result<(VersionVector, &'a [u8]), ReadError>
    ensures { Gives (λ x. (⟦<VersionVector as Exact>⟧.view x.0, x.1.now)) result (fronts.read bytes.now) }
{
    let (count, rest) = read_u8(bytes)?;
    let (entries, rest) = read_rows(version, source, count as usize, rest)?;
    Ok((Keyed::from_rising(entries), rest))
}

impl WireKey for u32 {
    ghost format = { call };

    fn read(_alloc: Global, bytes: &[u8]) -> Result<(u32, &[u8]), ReadError> {
        read_call(bytes)
    }
}

// The dropped front, and the calls at or above it.
#[tactic(auto, unfolding(mpx_format::specs::Contexts::held, mpx_format::specs::Contexts::calls))]
fn read_held<'a>(
    version: Version,
    source: Source<'a>,
    bytes: &'a [u8],
) -> Result<(Trunc<CallPosts>, &'a [u8]), ReadError>
    ensures { Gives (λ x. (⟦<Trunc<CallPosts> as Exact>⟧.view x.0, x.1.now)) result ((held version).read bytes.now) }
{
    let (dropped, rest) = read_u32(bytes)?;
    let (count, rest) = read_u32(rest)?;
    let (calls, rest) = read_entries(version, source, &Some(dropped), count as usize, rest)?;
    Ok((Trunc::from_rising(dropped, calls), rest))
}

// A live context.
#[tactic(auto, unfolding(mpx_format::specs::Contexts::context, mpx_format::specs::Contexts::progress))]
fn read_context<'a>(
    version: Version,
    source: Source<'a>,
    bytes: &'a [u8],
) -> Result<(Entry, &'a [u8]), ReadError>
    ensures { Gives (λ x. (⟦<Entry as Exact>⟧.view x.0, x.1.now)) result ((context version).read bytes.now) }
{
    let (birth, rest): (Flat<Birth>, &[u8]) = read_told(version, source, bytes)?;
    let (fronts, rest) = read_fronts(version, source, rest)?;
    let (posts, rest) = read_held(version, source, rest)?;
    let second = Pair {
        first: fronts,
        second: posts,
    };
    Ok((
        Pair {
            first: birth,
            second,
        },
        rest,
    ))
}

// A live context, as one that may be dead and isn't.
pub fn read_live<'a>(
    version: Version,
    source: Source<'a>,
    bytes: &'a [u8],
) -> Result<(Lifted, &'a [u8]), ReadError>
    ensures { Gives (λ x. (⟦<Lifted as Exact>⟧.view x.0, x.1.now)) result ((lift_form (context version) 0).read bytes.now) }
{
    let (entry, rest) = read_context(version, source, bytes)?;
    Ok((Lift::Live(entry), rest))
}

// A byte of version 2 tells whether the context is dead.
impl WireValue for Lifted {
    ghost Seen = { LiftedView };

    ghost seen = { ⟦<Lifted as Exact>⟧.view };

    ghost format = { lifted };

    ghost says = { says_something };

    fn says_something(&self) -> bool {
        is_said(self)
    }

    #[tactic(auto, unfolding(mpx_format::specs::Contexts::lifted))]
    fn read<'a>(
        version: Version,
        source: Source<'a>,
        bytes: &'a [u8],
    ) -> Result<(Lifted, &'a [u8]), ReadError> {
        match version {
            Version::One => read_live(version, source, bytes),
            Version::Two => {
                let (form, rest) = read_u8(bytes)?;
                if form == 0 {
                    read_live(version, source, rest)
                } else if form == 1 {
                    Ok((Lift::Dead, rest))
                } else {
                    Err(out_of_limits(bytes))
                }
            }
        }
    }
}

// What is said of contexts, by name.
fn read_contexts<'a>(
    version: Version,
    source: Source<'a>,
    bytes: &'a [u8],
) -> Result<(Keyed<Name, Lifted>, &'a [u8]), ReadError>
    ensures gives { Gives (λ x. (view_of_entries x.0, x.1.now)) result ((keyed name_cmp name_count name (lifted version) says_something).read bytes.now) }
    ensures some { IfErr result (λ e. (rest : List ℕ) → name_count.read bytes.now ≢ Ok (0, rest)) }
{
    let (count, rest) = read_name_count(bytes)?;
    let (entries, rest) = read_entries(version, source, &None, count as usize, rest)?;
    Ok((Keyed::from_rising(entries), rest))
}

/// The parts of a board, as the version spells them, at the front of these bytes, and the bytes after them. An `Err` tells the first
/// field that is wrong, or that memory is refused; bytes that spell no parts, and nothing else, take none.
#[tactic(auto, unfolding(mpx_format::specs::Contexts::parts))]
pub fn read_parts<'a>(
    version: Version,
    source: Source<'a>,
    bytes: &'a [u8],
) -> Result<(Parts, &'a [u8]), ReadError>
    ensures gives { Gives (λ x. (⟦<Parts as Exact>⟧.view x.0, x.1.now)) result ((parts version).read bytes.now) }
    ensures some { IfErr result (λ e. bytes.now ≢ (parts version).spelling no_parts) }
{
    let (contexts, rest) = read_contexts(version, source, bytes)?;
    let (acks, rest) = read_all_acks(version, source, rest)?;
    Ok((
        Pair {
            first: contexts,
            second: acks,
        },
        rest,
    ))
}

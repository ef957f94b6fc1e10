//! What is said of posts, and of the posts of a call, joined as its bytes are read.
ghost use Rattle.std.specs.Prelude.{◌≡◌, ◌++◌, IfOk, Ok, ◌≤◌, length};
ghost use Rattle.join_core.specs.laws.Between.{old_or_joined-laws};
ghost use Rattle.join_core.specs.Flat.{FlatView, flat_joining};
ghost use Rattle.join_core.specs.laws.Flat.{flat_laws};
ghost use Rattle.join_core.specs.FlatSeen.{flat_view};
ghost use Rattle.join_core.specs.Joins.{old_or_joined};
ghost use Rattle.mpx_post.specs.Equality.{given_equality, same_given};
ghost use Rattle.mpx_post.specs.Posts.{Given};
ghost use Rattle.mpx_board.specs.Parts.{CallView, call_between, call_between_laws, call_joining, call_laws};
ghost use Rattle.mpx_board.specs.Views.{view_of_call};
ghost use Rattle.mpx_format.specs.Contexts.{call_posts, posted};
ghost use Rattle.mpx_decode.specs.Raising.{StandsInFront};

use crate::big_endian::read_u8;
use crate::entries::WireValue;
use crate::fields::read_some_byte;
use crate::front_posts::behind_told;
use crate::join_rows::{WireJoin, raise_entries, raise_map};
use crate::posts::read_post;
use join_core::{Flat, Join, OutOfMemory};
use join_nest::Keyed;
use mpx_board::CallPosts;
use mpx_format::{ReadError, Version};
use mpx_group::Proc;
use mpx_post::Post;
use mpx_rope::Beyond;

impl WireJoin for Flat<Post> {
    ghost View = { FlatView Given };

    ghost view = { flat_view (λ p. p) };

    ghost joining = { flat_joining same_given };

    ghost between = { old_or_joined (flat_joining same_given) };

    ghost wire = { posted };

    #[inline(never)]
    fn read_new<'a>(
        version: Version,
        beyond: &mut Beyond<'a>,
        bytes: &'a [u8],
    ) -> Result<(Flat<Post>, &'a [u8]), ReadError> {
        if let Ok((form, rest)) = read_u8(bytes) {
            if form == 1 {
                return match read_post(version, beyond, rest) {
                    Err(e) => Err(e),
                    Ok((post, rest)) => Ok((Flat::Known(post), rest)),
                };
            }
        }
        <Flat<Post> as WireValue>::read(version, beyond.source(), bytes)
    }

    fn raise<'a>(
        &mut self,
        version: Version,
        beyond: &mut Beyond<'a>,
        bytes: &'a [u8],
    ) -> Result<&'a [u8], OutOfMemory> {
        match behind_told(version, self, beyond, bytes) {
            Some(rest) => Ok(rest),
            None => match <Flat<Post> as WireJoin>::read_new(version, beyond, bytes) {
                Err(_) => Err(OutOfMemory),
                Ok((told, rest)) => {
                    self.join_in(beyond.alloc(), &told)?;
                    Ok(rest)
                }
            },
        }
    }

    ghost laws = { flat_laws given_equality };

    ghost between_laws = { old_or_joined-laws (flat_laws given_equality) };
}

impl WireJoin for CallPosts {
    ghost View = { CallView };

    ghost view = { view_of_call };

    ghost joining = { call_joining };

    ghost between = { call_between };

    ghost wire = { call_posts };

    fn read_new<'a>(
        version: Version,
        beyond: &mut Beyond<'a>,
        bytes: &'a [u8],
    ) -> Result<(CallPosts, &'a [u8]), ReadError> {
        if beyond.has_items() {
            return read_beside(version, beyond, bytes);
        }
        <CallPosts as WireValue>::read(version, beyond.source(), bytes)
    }

    fn raise<'a>(
        &mut self,
        version: Version,
        beyond: &mut Beyond<'a>,
        bytes: &'a [u8],
    ) -> Result<&'a [u8], OutOfMemory> {
        match read_some_byte(bytes) {
            Err(_) => Err(OutOfMemory),
            Ok((count, rest)) => raise_map(version, beyond, self, count as usize, rest),
        }
    }

    ghost laws = { call_laws };

    ghost between_laws = { call_between_laws };
}

// The posts of a call, of which some may have their items beyond: they are joined to none.
#[inline(never)]
fn read_beside<'a>(
    version: Version,
    beyond: &mut Beyond<'a>,
    bytes: &'a [u8],
) -> Result<(CallPosts, &'a [u8]), ReadError>
    requires { StandsInFront (call_posts version) (bytes.now ++ beyond.old) }
    ensures read { IfOk result (λ x. (call_posts version).read (bytes.now ++ beyond.old) ≡ Ok (view_of_call x.0, x.1.now ++ beyond.new)) }
    ensures less { length beyond.new ≤ length beyond.old }
{
    match read_some_byte(bytes) {
        Err(e) => Err(e),
        Ok((count, rest)) => {
            let mut entries: Vec<(Proc, Flat<Post>)> = Vec::new(beyond.alloc());
            match raise_entries(version, beyond, &mut entries, count as usize, rest) {
                Err(_) => Err(ReadError::OutOfMemory),
                Ok(rest) => Ok((Keyed::from_rising(entries), rest)),
            }
        }
    }
}

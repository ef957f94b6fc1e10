//! What one member posts to one call.
ghost use Rattle.std.specs.Prelude.{◌≡◌, is_some};
ghost use Rattle.std.specs.Option.{option_copied, option_map};
ghost use Rattle.mpx_num.specs.ItemList.{ItemList};
ghost use Rattle.mpx_kind.specs.Kinds.{fields_of};
ghost use Rattle.mpx_post.specs.Ranks.{AreRanks};
ghost use Rattle.mpx_post.specs.Posts.{AreCounts, Given, IsColour, IsPost, are_items_of, colour_of, count_of, destinations_of, edges_of, few_items, group_of, is_free, key_of, sources_of, weighted_of};
ghost use Rattle.mpx_post.specs.Equality.{same_option, same_items, same_operations};
ghost use Rattle.mpx_post.specs.Graphs.{AreEdges, AreNeighbours};

use crate::counts::Counts;
use crate::making::Making;
use join_core::{Exact, OutOfMemory};
use mpx_birth::{Edge, Neighbour};
use mpx_kind::{Kind, Mode};
use mpx_num::{Op, Spelled, Ty};
use std::alloc::Global;
use std::marker::Model;

/// What one member posts to one call: its kind with the fields of that kind, within the limits of a post.
// The order of the fields, and items without an `Option`, keep it small: boards move posts.
#[derive(Debug, Drop)]
pub struct Post {
    kind: Kind,
    mode: Mode,
    root: Option<u8>,
    op: Option<Op>,
    has_items: bool,
    making: Making,
    scounts: Counts,
    rcounts: Counts,
    items: Spelled,
}

impl Model for Post {
    ghost use Rattle.std.specs.Prelude.{Some, None, cond};
    ghost use Rattle.mpx_post.specs.Posts.{Given, IsPost};

    ghost Value = { Given };

    ghost view = { λ p. record { kind = p.kind; mode = p.mode; root = p.root; op = p.op; scounts = p.scounts; rcounts = p.rcounts; items = cond p.has_items (Some p.items) None; making = p.making } };

    ghost invariant = { λ p. IsPost (record { kind = p.kind; mode = p.mode; root = p.root; op = p.op; scounts = p.scounts; rcounts = p.rcounts; items = cond p.has_items (Some p.items) None; making = p.making }) };
}

impl Exact for Post {
    ghost use Rattle.join_core.specs.Joins.{never_between, never_joined};
    ghost use Rattle.mpx_post.specs.Posts.{Given};
    ghost use Rattle.mpx_post.specs.Equality.{same_given, given_equality};

    ghost View = { Given };

    ghost view = { λ p. p };

    ghost equal = { same_given };

    ghost joining = { never_joined };

    ghost between = { never_between };

    fn same(&self, other: &Post) -> bool {
        (self.kind.code() == other.kind.code())
            & (self.mode == other.mode)
            & (self.root == other.root)
            & have_same_op(self.op, other.op)
            & self.scounts.same(&other.scounts)
            & self.rcounts.same(&other.rcounts)
            & are_same(self.items(), other.items())
            & self.making.same(&other.making)
    }

    fn copy(&self, alloc: Global) -> Result<Post, OutOfMemory> {
        let scounts = self.scounts.copy()?;
        let rcounts = self.rcounts.copy()?;
        let items = self.items.copy()?;
        let making = self.making.copy()?;
        Ok(Post {
            kind: self.kind,
            mode: self.mode,
            root: self.root,
            op: self.op,
            has_items: self.has_items,
            making,
            scounts,
            rcounts,
            items,
        })
    }

    ghost equality = { given_equality };
}

impl Post {
    /// The post of these fields, which are those of its kind. It takes no memory.
    pub fn new(
        kind: Kind,
        mode: Mode,
        root: Option<u8>,
        op: Option<Op>,
        scounts: Counts,
        rcounts: Counts,
        items: Option<Spelled>,
        making: Making,
    ) -> Post
        requires { IsPost (record { kind = kind; mode = mode; root = root; op = op; scounts = scounts; rcounts = rcounts; items = items; making = making }) }
        ensures { result ≡ record { kind = kind; mode = mode; root = root; op = op; scounts = scounts; rcounts = rcounts; items = items; making = making } }
    {
        let has_items = items.is_some();
        let items = match items {
            None => Spelled::empty(Ty::I8),
            Some(items) => items,
        };
        Post {
            kind,
            mode,
            root,
            op,
            has_items,
            making,
            scounts,
            rcounts,
            items,
        }
    }

    /// The post is within the limits of its type.
    pub fn limits(&self)
        ensures post { IsPost self.now }
        ensures scounts { AreCounts self.now.scounts }
        ensures rcounts { AreCounts self.now.rcounts }
        ensures items { are_items_of self.now.items }
    {
        // so that the proof knows the limits of its parts
        let _sent = self.scounts.as_slice();
        let _received = self.rcounts.as_slice();
        if self.has_items {
            let _bytes = self.items.bytes();
        }
    }

    /// The kind.
    pub fn kind(&self) -> Kind
        ensures { result ≡ self.now.kind }
    {
        self.kind
    }

    /// Whether it frees its communicator.
    pub fn is_free(&self) -> bool
        ensures { result ≡ is_free self.now }
    {
        self.kind.frees()
    }

    /// Whether the call blocks.
    pub fn mode(&self) -> Mode
        ensures { result ≡ self.now.mode }
    {
        self.mode
    }

    /// The rank of the root, where the kind has one.
    pub fn root(&self) -> Option<u8>
        ensures value { result ≡ self.now.root }
        ensures there { is_some result ≡ (fields_of self.now.kind).root }
    {
        self.root
    }

    /// The operation, where the kind has one.
    pub fn op(&self) -> Option<Op>
        ensures value { result ≡ self.now.op }
        ensures there { is_some result ≡ (fields_of self.now.kind).op }
    {
        self.op
    }

    /// How many items each block that it sends has, where the kind has send counts.
    pub fn scounts(&self) -> &Counts
        ensures { result.now ≡ self.now.scounts }
    {
        &self.scounts
    }

    /// How many items each block that it gets has, where the kind has receive counts.
    pub fn rcounts(&self) -> &Counts
        ensures { result.now ≡ self.now.rcounts }
    {
        &self.rcounts
    }

    /// The items that it gives, at most 4,096, where the kind has items.
    pub fn items(&self) -> Option<&Spelled>
        ensures value { option_copied result ≡ self.now.items }
        ensures there { is_some result ≡ (fields_of self.now.kind).items }
        ensures few { few_items (option_copied result) }
    {
        if self.has_items {
            Some(&self.items)
        } else {
            None
        }
    }

    /// The type of the items that it gives, where the kind has items.
    pub fn ty(&self) -> Option<Ty>
        ensures value { result ≡ option_map (λ items. items.ty) self.now.items }
        ensures there { is_some result ≡ (fields_of self.now.kind).items }
    {
        if self.has_items {
            Some(self.items.ty())
        } else {
            None
        }
    }

    /// What it says of the communicator that its call makes.
    pub fn making(&self) -> &Making
        ensures { result.now ≡ self.now.making }
    {
        &self.making
    }

    /// Which of the new communicators the member wants, where the kind asks that and it isn't undefined.
    pub fn colour(&self) -> Option<u32>
        ensures value { result ≡ colour_of self.now }
        ensures small { IsColour result }
    {
        self.making.colour()
    }

    /// The key by which the members of a new communicator are ordered, where the kind asks for it, else 0.
    pub fn key(&self) -> i32
        ensures { result ≡ key_of self.now }
    {
        self.making.key()
    }

    /// The ranks of a new communicator's members, none twice, where the kind asks for them, else none.
    pub fn group(&self) -> &[u8]
        ensures value { result.now ≡ group_of self.now }
        ensures ranks { AreRanks result.now }
    {
        self.making.group()
    }

    /// Whether its edges have weights, where the kind makes a graph, else false.
    pub fn weighted(&self) -> bool
        ensures { result ≡ weighted_of self.now }
    {
        self.making.weighted()
    }

    /// The edges of a new graph, at most 512, where the kind asks for them, else none.
    pub fn edges(&self) -> &[Edge]
        ensures value { result.now ≡ edges_of self.now }
        ensures edges { AreEdges (record { weighted = weighted_of self.now; edges = edges_of self.now }) }
    {
        self.making.edges()
    }

    /// From whom edges of a new graph come to the member, where the kind asks for that, else none.
    pub fn sources(&self) -> &[Neighbour]
        ensures value { result.now ≡ sources_of self.now }
        ensures neighbours { AreNeighbours (record { weighted = weighted_of self.now; sources = sources_of self.now; destinations = destinations_of self.now }) }
    {
        self.making.sources()
    }

    /// To whom edges of a new graph go from the member, where the kind asks for that, else none.
    pub fn destinations(&self) -> &[Neighbour]
        ensures value { result.now ≡ destinations_of self.now }
        ensures neighbours { AreNeighbours (record { weighted = weighted_of self.now; sources = sources_of self.now; destinations = destinations_of self.now }) }
    {
        self.making.destinations()
    }

    /// How many items it gives.
    pub fn count(&self) -> usize
        ensures { result ≡ count_of self.now }
    {
        if self.has_items {
            self.items.count()
        } else {
            0
        }
    }
}

/// Whether both have none, or the same operation: one of a job's own is the same at the same place.
pub fn have_same_op(left: Option<Op>, right: Option<Op>) -> bool
    ensures { result ≡ same_operations left right }
{
    match (left, right) {
        (None, None) => true,
        (None, Some(_)) => false,
        (Some(_), None) => false,
        (Some(left), Some(right)) => left.code() == right.code(),
    }
}

// Whether both have none, or the same items.
fn are_same(left: Option<&Spelled>, right: Option<&Spelled>) -> bool
    ensures { result ≡ same_option same_items (option_copied left.entry) (option_copied right.entry) }
{
    match (left, right) {
        (None, None) => true,
        (None, Some(_)) => false,
        (Some(_), None) => false,
        (Some(left), Some(right)) => left.same(right),
    }
}

//! Posts that pass their check fit their communicator.
ghost use Rattle.std.specs.Prelude.{◌≡◌, ℕ, List, true, length, Ok, Some};
ghost use Rattle.mpx_num.specs.declared.own.Operation.{Operation};
ghost use Rattle.mpx_birth.specs.Births.{BirthView, rank_in};
ghost use Rattle.mpx_post.specs.declared.draft.At.{At};
ghost use Rattle.mpx_post.specs.declared.draft.Draft.{Draft};
ghost use Rattle.mpx_post.specs.Drafts.{checked};
ghost use Rattle.mpx_post.specs.Posts.{Given};
ghost use Rattle.mpx_match.specs.Questions.{fits_there};

/// A draft that no refusal holds of makes a post that fits the communicator. So in an evaluation, where ranks make only such posts, no
/// post is a fault by itself: a verdict there is the first thing in which posts differ.
pub fn checked_posts_fit()
    ensures { (ops : List Operation) (birth : BirthView) (me rank : ℕ) (at : At) (draft : Draft) (given : Given) → rank_in me birth.members ≡ Some rank
        → checked ops birth me at draft ≡ Ok given → fits_there ops birth.topology (length birth.members) rank given ≡ true }
{}

//! The words of a statement that posts.
ghost use Rattle.std.specs.Prelude.{◌≡◌};
ghost use Rattle.std.specs.Option.{option_copied};
ghost use Rattle.mpx_statement.specs.Statements.{bound_to, communicator_word, started_as};

use mpx_statement::{Posting, Word};

/// The names of its communicator, of its request where it is nonblocking, and of the new communicator where it has one.
#[derive(Drop)]
pub(crate) struct PostingWords<'a> {
    pub(crate) on: &'a Word,
    pub(crate) request: Option<&'a Word>,
    pub(crate) target: Option<&'a Word>,
}

/// The words of a statement that posts.
pub(crate) fn words_of(posting: &Posting) -> PostingWords<'_>
    ensures on { result.on.now ≡ communicator_word posting.now }
    ensures request { option_copied result.request ≡ started_as posting.now }
    ensures target { option_copied result.target ≡ bound_to posting.now }
{
    match posting {
        Posting::Call { on, .. } => PostingWords {
            on,
            request: None,
            target: None,
        },
        Posting::Start { on, request, .. } => PostingWords {
            on,
            request: Some(request),
            target: None,
        },
        Posting::New { on, to, .. } => PostingWords {
            on,
            request: None,
            target: Some(to),
        },
        Posting::CreateGroup { on, to, .. } => PostingWords {
            on,
            request: None,
            target: Some(to),
        },
    }
}

//! Lists of operations of a job's own that are refused: too many, and words that are no names, are an operation's or come twice.
use mpx_affine::Affine;
use mpx_num::{Ops, OpsError, OwnOp};
use std::alloc::Global;
use std::test::Fail;

// The operations on maps by these words.
pub fn named(alloc: Global, words: &[&'static str]) -> Result<Result<Ops, OpsError>, Fail> {
    let mut list: Vec<Box<dyn OwnOp + Send + Sync + Drop>> = Vec::new(alloc);
    for word in words {
        list.push(Box::new(alloc, Affine { word: *word })?)?;
    }
    Ok(Ops::new(list))
}

// Words, and why they aren't those of a list.
const LISTS: [(&[&'static str], Option<OpsError>); 6] = [
    (
        &[
            "a0", "a1", "a2", "a3", "a4", "a5", "a6", "a7", "a8", "a9", "b0", "b1", "b2", "b3",
            "b4", "b5", "b6",
        ],
        Some(OpsError::TooManyOps),
    ),
    (
        &[
            "a0", "a1", "a2", "a3", "a4", "a5", "a6", "a7", "a8", "a9", "b0", "b1", "b2", "b3",
            "b4", "b5",
        ],
        None,
    ),
    (&[], None),
    (&["sum"], Some(OpsError::BadWord)),
    (&["Affine"], Some(OpsError::BadWord)),
    (&["a", "b", "a"], Some(OpsError::BadWord)),
];

#[test]
fn lists_are_refused(rt: HostRuntime) -> Result<(), Fail> {
    for &(words, wanted) in LISTS.iter() {
        assert!(rt; named(rt.alloc(), words)?.err() == wanted);
    }
    Ok(())
}

//! Calls that were posted, to be asked for their results.
ghost use Rattle.std.specs.Prelude.{◌≡◌, IfOk};
ghost use Rattle.std.proofs.Common.{rules};
ghost use Rattle.std.specs.Hash as fed;
ghost use Rattle.std.specs.Cmp.Rules.{hashing};

use join_core::{Exact, OutOfMemory};
use mpx_name::Name;
use std::alloc::Global;
use std::hash::{Hash, Hasher};

/// A call that was posted, to be asked for its result.
#[derive(Debug, PartialEq, Eq, Drop)]
pub struct Request {
    pub(crate) name: Name,
    pub(crate) call: u32,
}

impl Hash for Request {
    ghost hash_input = { λ r. fed.u32 r.call };

    ghost respects_eq = { Prim.search (hashing, rules) };

    fn hash<H: Hasher>(&self, state: &mut H) {
        self.call.hash(state);
    }
}

impl Request {
    /// The call with this number on the context, posted or not. Whoever posts makes it: users have theirs from what posted their calls.
    pub fn new(name: Name, call: u32) -> Request
        ensures { result ≡ record { name = name; call = call } }
    {
        Request { name, call }
    }

    // The same once more.
    pub(crate) fn copy(&self, alloc: Global) -> Result<Request, OutOfMemory>
        ensures { IfOk result (λ twin. twin ≡ self.now) }
    {
        Ok(Request {
            name: self.name.copy(alloc)?,
            call: self.call,
        })
    }

    /// The context of the call.
    pub fn name(&self) -> &Name
        ensures { result.now ≡ self.now.name }
    {
        &self.name
    }

    /// The number of the call.
    pub fn call(&self) -> u32
        ensures { result ≡ self.now.call }
    {
        self.call
    }

    /// The context and the number of the call.
    pub fn into_parts(self) -> (Name, u32)
        ensures { result ≡ (self.name, self.call) }
    {
        let Request { name, call } = self;
        (name, call)
    }
}

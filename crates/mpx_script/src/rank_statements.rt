//! The statements of one rank.
ghost use Rattle.std.specs.Prelude.{◌≡◌, ◌<◌, ℕ, List, [], ◌∷◌, ◌++◌, OnErr, OnOk, vec_capacity, vec_len};
ghost use Rattle.std.specs.BTreeSet.{IsUnchanged};
ghost use Rattle.mpx_script.specs.ScriptView.{AreBound, AreNames};
ghost use Rattle.mpx_statement.specs.declared.statement.Statement.{Statement as StatementView};
ghost use Rattle.mpx_script.specs.Naming.{is_bound, names_bound};

use join_core::OutOfMemory;
use mpx_statement::{Statement, Word};
use std::alloc::Global;
use std::collections::BTreeSet;
use std::marker::Model;

/// A rank's statements in the order of the file; contracts see their list.
#[derive(Debug, Drop)]
pub struct RankStatements {
    statements: Vec<Statement>,
    /// The words that they bind to communicators.
    communicators: BTreeSet<Vec<u8>>,
    /// The words that they bind to requests.
    requests: BTreeSet<Vec<u8>>,
}

impl Model for RankStatements {
    ghost use Rattle.std.specs.Prelude.{List};
    ghost use Rattle.mpx_statement.specs.declared.statement.Statement.{Statement as StatementView};
    ghost use Rattle.mpx_script.specs.ScriptView.{AreBound};

    ghost Value = { List StatementView };

    ghost view = { λ s. s.statements.items };

    ghost invariant = { λ s. AreBound s.communicators s.requests s.statements.items };
}

impl RankStatements {
    /// No statements.
    pub fn new(alloc: Global) -> RankStatements
        ensures { result ≡ [] }
    {
        RankStatements {
            statements: Vec::new(alloc),
            communicators: BTreeSet::new(alloc),
            requests: BTreeSet::new(alloc),
        }
    }

    /// The statements.
    pub fn as_slice(&self) -> &[Statement]
        ensures { result.now ≡ self.now }
    {
        self.statements.as_slice()
    }

    /// Whether the rank has bound a name to a communicator.
    pub fn has_communicator(&self, word: &[u8]) -> bool
        ensures { result ≡ is_bound (names_bound self.now).communicators word.now }
    {
        word == b"world".as_slice() || self.communicators.contains(word)
    }

    /// Whether the rank has bound a name to a request.
    pub fn has_request(&self, word: &[u8]) -> bool
        ensures { result ≡ is_bound (names_bound self.now).requests word.now }
    {
        self.requests.contains(word)
    }

    /// Adds a statement at the end.
    pub fn push(&mut self, alloc: Global, statement: Statement) -> Result<(), OutOfMemory>
        ensures { OnOk result (self.new ≡ self.old ++ statement ∷ []) }
    {
        match prepare(
            alloc,
            &mut self.statements,
            &mut self.communicators,
            &mut self.requests,
            &statement,
        ) {
            Ok(()) => {
                self.statements.push_reserved(statement);
                Ok(())
            }
            Err(e) => {
                drop(statement);
                Err(e)
            }
        }
    }
}

// Makes room for a statement, and then adds the word that it binds.
fn prepare(
    alloc: Global,
    statements: &mut Vec<Statement>,
    communicators: &mut BTreeSet<Vec<u8>>,
    requests: &mut BTreeSet<Vec<u8>>,
    statement: &Statement,
) -> Result<(), OutOfMemory>
    ensures kept { statements.new.items ≡ statements.old.items }
    ensures room { OnOk result (vec_len statements.new < vec_capacity statements.new) }
    ensures added { OnOk result ((statements : List StatementView) → AreBound communicators.old requests.old statements
        → AreBound communicators.new requests.new (statements ++ statement.now ∷ [])) }
    ensures kept_communicators { OnErr result (IsUnchanged communicators.old communicators.new) }
    ensures kept_requests { OnErr result (IsUnchanged requests.old requests.new) }
{
    statements.reserve(1)?;
    add_names(alloc, communicators, requests, statement)
}

// Adds the word that a statement binds, where it binds one, to its sort of names.
fn add_names(
    alloc: Global,
    communicators: &mut BTreeSet<Vec<u8>>,
    requests: &mut BTreeSet<Vec<u8>>,
    statement: &Statement,
) -> Result<(), OutOfMemory>
    ensures added { OnOk result ((statements : List StatementView) → AreBound communicators.old requests.old statements
        → AreBound communicators.new requests.new (statements ++ statement.now ∷ [])) }
    ensures kept_communicators { OnErr result (IsUnchanged communicators.old communicators.new) }
    ensures kept_requests { OnErr result (IsUnchanged requests.old requests.new) }
{
    match (statement.target(), statement.request()) {
        (Some(word), _) => add_name(alloc, communicators, word),
        (None, Some(word)) => add_name(alloc, requests, word),
        (None, None) => Ok(()),
    }
}

// Adds a word to some names.
fn add_name(alloc: Global, names: &mut BTreeSet<Vec<u8>>, word: &Word) -> Result<(), OutOfMemory>
    ensures added { OnOk result ((words : List (List ℕ)) → AreNames names.old words
        → AreNames names.new (words ++ word.now ∷ [])) }
    ensures kept { OnErr result (IsUnchanged names.old names.new) }
{
    let name = Vec::from_slice(alloc, word.as_bytes())?;
    names.insert(name)?;
    Ok(())
}

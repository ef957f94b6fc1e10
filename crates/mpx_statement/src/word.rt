//! Words of a script, and lists of them.
ghost use Rattle.std.specs.Prelude.{◌≡◌, IfOk, refl};
ghost use Rattle.std.specs.Cmp.{partial_equiv_from_equiv, partial_order_from_total, eq_by_cmp_equiv};
ghost use Rattle.std.specs.Cmp.Lexicographic.{slice_cmp, nat_list_cmp_total};
ghost use Rattle.std.specs.Ordering.{nat_cmp, eq_by_cmp, as_partial_cmp};

use join_core::OutOfMemory;
use std::alloc::Global;
use std::cmp::Ordering;
use std::marker::Model;

/// A name in a script; contracts see its bytes.
#[derive(Debug, Drop)]
pub struct Word {
    bytes: Vec<u8>,
}

impl Model for Word {
    ghost use Rattle.std.specs.Prelude.{List, ℕ};

    ghost Value = { List ℕ };

    ghost view = { λ w. w.bytes.items };
}

impl Word {
    /// The word of these bytes.
    pub fn new(alloc: Global, bytes: &[u8]) -> Result<Word, OutOfMemory>
        ensures { IfOk result (λ word. word ≡ bytes.now) }
    {
        let bytes = Vec::from_slice(alloc, bytes)?;
        Ok(Word { bytes })
    }

    /// Its bytes.
    pub fn as_bytes(&self) -> &[u8]
        ensures { result.now ≡ self.now }
    {
        self.bytes.as_slice()
    }

    /// A copy of the word.
    pub fn copy(&self, alloc: Global) -> Result<Word, OutOfMemory>
        ensures { IfOk result (λ copied. copied ≡ self.now) }
    {
        Word::new(alloc, &self.bytes)
    }
}

/// Names in a script, in their order; contracts see their list.
#[derive(Debug, Drop)]
pub struct WordList {
    words: Vec<Word>,
}

impl Model for WordList {
    ghost use Rattle.std.specs.Prelude.{List, ℕ};

    ghost Value = { List (List ℕ) };

    ghost view = { λ w. w.words.items };
}

impl WordList {
    /// The list of these words.
    pub fn new(words: Vec<Word>) -> WordList
        ensures { result ≡ words.items }
    {
        WordList { words }
    }

    /// The words.
    pub fn as_slice(&self) -> &[Word]
        ensures { result.now ≡ self.now }
    {
        self.words.as_slice()
    }

    /// A copy of the list, with copies of its words.
    pub fn copy(&self, alloc: Global) -> Result<WordList, OutOfMemory>
        ensures { IfOk result (λ copied. copied ≡ self.now) }
    {
        let words = copied(alloc, &self.words)?;
        Ok(WordList { words })
    }
}

fn copied(alloc: Global, words: &[Word]) -> Result<Vec<Word>, OutOfMemory>
    ensures { IfOk result (λ made. made.items ≡ words.now) }
{
    let mut made = Vec::new(alloc);
    for word in words {
        made.push(word.copy(alloc)?)?;
    }
    Ok(made)
}

impl Ord for Word {
    ghost cmp = { slice_cmp nat_cmp };

    ghost total = { nat_list_cmp_total };

    ghost matches_partial_cmp = { λ a b. refl };

    ghost matches_eq = { λ a b. refl };

    fn cmp(&self, other: &Word) -> Ordering {
        self.bytes.cmp(&other.bytes)
    }
}

impl PartialOrd for Word {
    ghost partial_cmp = { as_partial_cmp (slice_cmp nat_cmp) };

    ghost laws = { partial_order_from_total nat_list_cmp_total };

    fn partial_cmp(&self, other: &Word) -> Option<Ordering> {
        Some(self.cmp(other))
    }
}

impl PartialEq for Word {
    ghost eq = { eq_by_cmp (slice_cmp nat_cmp) };

    ghost laws = { partial_equiv_from_equiv (eq_by_cmp_equiv nat_list_cmp_total) };

    fn eq(&self, other: &Word) -> bool {
        self.cmp(other) == Ordering::Equal
    }
}

impl Eq for Word {
    ghost laws = { eq_by_cmp_equiv nat_list_cmp_total };
}

//! The words of a run's options.
ghost use Rattle.std.specs.Prelude.{◌≡◌, IfOk, OnOk, map, string_bytes};
ghost use Rattle.gossipmpi_c.specs.Options.{with_word, words_of};

use join_core::OutOfMemory;
use std::alloc::Global;

/// The words of `gossipmpi run` with these options, which blanks part.
pub(crate) fn words_of(alloc: Global, options: &str) -> Result<Vec<String>, OutOfMemory>
    ensures { IfOk result (λ words. map string_bytes words.items ≡ words_of options.now) }
{
    let mut words = Vec::new(alloc);
    push_word(alloc, "gossipmpi", &mut words)?;
    push_word(alloc, "run", &mut words)?;
    for part in options.split(' ') {
        push_word(alloc, part, &mut words)?;
    }
    Ok(words)
}

// Adds a word, where it isn't empty.
fn push_word(alloc: Global, word: &str, words: &mut Vec<String>) -> Result<(), OutOfMemory>
    ensures { OnOk result (map string_bytes words.new.items ≡ with_word (map string_bytes words.old.items) word.now) }
{
    if word.is_empty() {
        return Ok(());
    }
    let word = String::from_str(alloc, word)?;
    words.push(word)?;
    Ok(())
}

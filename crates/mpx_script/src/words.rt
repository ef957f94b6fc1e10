//! The lines of a text, and the words of a line.
ghost use Rattle.std.specs.Prelude.{◌≡◌, ◌==◌, ◌-◌, ◌<◌, ◌≤◌, ◌&&◌, nat_lt, not, false, ◌∷◌, length, drop, take, slice_get, slice_index, slice_index_or, OnSome};
ghost use Rattle.std.specs.List.{list_any, prefix_len, position_or_len};
ghost use Rattle.std.specs.Option.{option_copied};
ghost use Rattle.std.specs.Str.Lines.{lines, strip_carriage_return};
ghost use Rattle.mpx_script.specs.Words.{is_ascii, is_blank, words, counts};
ghost use Rattle.mpx_script.specs.Places.{last_word, next_word, words_after, words_before};

/// How many bytes there are before the first such one.
pub fn front_len(byte: u8, text: &[u8]) -> usize
    ensures len { result ≡ position_or_len (λ b. b == byte) text.now }
    ensures within { result ≤ length text.now }
{
    text.iter().take_while(|other| **other != byte).count()
}

/// A line without the one carriage return at its end.
fn without_return(line: &[u8]) -> &[u8]
    ensures { result.now ≡ strip_carriage_return line.now }
{
    match line {
        [front @ .., b'\r'] => front,
        _ => line,
    }
}

/// The first line of a text, without its end, and the text after it.
pub fn first_line(text: &[u8]) -> (&[u8], &[u8])
    requires { 0 < length text.now }
    ensures lines { lines text.now ≡ result.0.now ∷ lines result.1.now }
    ensures shorter { length result.1.now < length text.now }
{
    let (line, rest) = text.split_at(front_len(b'\n', text));
    match rest.split_first() {
        Some((_, after)) => (without_return(line), after),
        None => (line, rest),
    }
}

fn is_blank(byte: u8) -> bool
    ensures { result ≡ is_blank byte }
{
    byte == b' ' || byte == b'\t'
}

/// How many blanks there are before the first word.
fn blanks_len(line: &[u8]) -> usize
    ensures len { result ≡ prefix_len is_blank line.now }
    ensures within { result ≤ length line.now }
{
    line.iter().take_while(|byte| is_blank(**byte)).count()
}

/// How many bytes there are before the first blank.
fn word_len(line: &[u8]) -> usize
    ensures len { result ≡ position_or_len is_blank line.now }
    ensures within { result ≤ length line.now }
{
    line.iter().take_while(|byte| !is_blank(**byte)).count()
}

/// The first word of a line, and the line after it.
pub fn first_word(line: &[u8]) -> (Option<&[u8]>, &[u8])
    ensures word { option_copied result.0 ≡ slice_get (words line.now) 0 }
    ensures rest { words result.1.now ≡ drop 1 (words line.now) }
    ensures shorter { OnSome result.0 (length result.1.now < length line.now) }
{
    let (_, line) = line.split_at(blanks_len(line));
    let (word, rest) = line.split_at(word_len(line));
    if word.is_empty() {
        (None, rest)
    } else {
        (Some(word), rest)
    }
}

/// The first word of a line and the line after it, where a word is asked for.
pub fn next_word(asked: bool, line: &[u8]) -> (Option<&[u8]>, &[u8])
    ensures word { option_copied result.0 ≡ next_word asked (words line.now) }
    ensures rest { words result.1.now ≡ words_after asked (words line.now) }
{
    if asked {
        first_word(line)
    } else {
        (None, line)
    }
}

/// How many bytes there are without the blanks at the end.
fn len_without_blanks(line: &[u8]) -> usize
    ensures words { words (take result line.now) ≡ words line.now }
    ensures end { (nat_lt 0 result && is_blank (slice_index_or line.now (result - 1) 0)) ≡ false }
    ensures within { result ≤ length line.now }
{
    let mut len = line.len();
    while len > 0 && is_blank(line[len - 1]) {
        len -= 1;
    }
    len
}

/// How many bytes there are up to the last blank.
fn len_up_to_blank(line: &[u8]) -> usize
    ensures behind { list_any is_blank (drop result line.now) ≡ false }
    ensures end { (nat_lt 0 result && not (is_blank (slice_index_or line.now (result - 1) 0))) ≡ false }
    ensures within { result ≤ length line.now }
{
    let mut len = line.len();
    while len > 0 && !is_blank(line[len - 1]) {
        len -= 1;
    }
    len
}

/// The last word of a line, and the line before it.
fn word_at_end(line: &[u8]) -> (Option<&[u8]>, &[u8])
    ensures word { option_copied result.0 ≡ slice_get (words line.now) (length (words line.now) - 1) }
    ensures rest { words result.1.now ≡ take (length (words line.now) - 1) (words line.now) }
{
    let (line, _) = line.split_at(len_without_blanks(line));
    let (rest, word) = line.split_at(len_up_to_blank(line));
    if word.is_empty() {
        (None, rest)
    } else {
        (Some(word), rest)
    }
}

/// The last word of a line and the line before it, where a word is asked for.
pub fn last_word(asked: bool, line: &[u8]) -> (Option<&[u8]>, &[u8])
    ensures word { option_copied result.0 ≡ last_word asked (words line.now) }
    ensures rest { words result.1.now ≡ words_before asked (words line.now) }
{
    if asked {
        word_at_end(line)
    } else {
        (None, line)
    }
}

/// Whether every byte is ASCII.
#[tactic(auto, unfolding(crate::specs::Words::is_ascii))]
pub fn is_ascii(line: &[u8]) -> bool
    ensures { result ≡ is_ascii line.now }
{
    line.iter().all(|byte| *byte < 128)
}

fn is_comment(word: &[u8]) -> bool
    ensures { result ≡ (slice_index word.now 0 == 35) }
{
    word.first() == Some(&b'#')
}

/// Whether a line isn't passed over: it has a word, and isn't a comment.
#[tactic(auto, using(crate::proofs::Splits::counts_by_first))]
pub fn counts(line: &[u8]) -> bool
    ensures { result ≡ counts (words line.now) }
{
    match first_word(line).0 {
        Some(word) => !is_comment(word),
        None => false,
    }
}

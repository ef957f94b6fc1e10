//! The forms of statements, as SCRIPTS has them, and how the words of a line differ from one.

// What stands behind each statement's word. ITEMS are any number of words, and so is `..`.
const FORMS: [(&str, &str); 33] = [
    ("barrier", "C"),
    ("bcast", "C ROOT TYPE COUNT ITEMS"),
    ("gather", "C ROOT TYPE ITEMS"),
    ("gatherv", "C ROOT TYPE RCOUNTS ITEMS"),
    ("scatter", "C ROOT TYPE COUNT ITEMS"),
    ("scatterv", "C ROOT TYPE SCOUNTS COUNT ITEMS"),
    ("allgather", "C TYPE ITEMS"),
    ("allgatherv", "C TYPE RCOUNTS ITEMS"),
    ("alltoall", "C TYPE COUNT ITEMS"),
    ("alltoallv", "C TYPE SCOUNTS RCOUNTS ITEMS"),
    ("reduce", "C ROOT OP TYPE ITEMS"),
    ("allreduce", "C OP TYPE ITEMS"),
    ("reduce_scatter_block", "C OP TYPE COUNT ITEMS"),
    ("reduce_scatter", "C OP TYPE RCOUNTS ITEMS"),
    ("scan", "C OP TYPE ITEMS"),
    ("exscan", "C OP TYPE ITEMS"),
    ("neighbor_allgather", "C TYPE COUNT ITEMS"),
    ("neighbor_allgatherv", "C TYPE RCOUNTS ITEMS"),
    ("neighbor_alltoall", "C TYPE SCOUNT RCOUNT ITEMS"),
    ("neighbor_alltoallv", "C TYPE SCOUNTS RCOUNTS ITEMS"),
    ("dup", "C -> D"),
    ("split", "C COLOUR KEY -> D"),
    ("create", "C RANKS -> D"),
    ("create_group", "C TAG RANKS -> D"),
    ("dist_graph", "C EDGES -> D"),
    ("dist_graph_adjacent", "C SOURCES DESTINATIONS -> D"),
    ("free", "C"),
    ("wait", "Q"),
    ("waitall", "Q .."),
    ("sources", "C"),
    ("destinations", "C"),
    ("compare", "C C"),
    ("translate", "C C RANKS"),
];

// The first so many of them have a form that doesn't block, with `i` before their word.
const BOTH: usize = 20;

/// What stands behind a statement's word, and whether `-> D` stands behind that, as the statement starts a call.
#[derive(Clone, Copy)]
pub(crate) struct Form {
    pub(crate) parts: &'static str,
    pub(crate) starts: bool,
}

/// How the words of a line differ from a form.
#[derive(Clone, Copy)]
pub(crate) enum Misfit {
    /// This part is missing, at this place of the line's words, from 0 on.
    Missing(&'static str, usize),
    /// The word at this place is one too many.
    Surplus(usize),
    /// The word at this place is one too many, as a list has blanks in it.
    Parted(usize),
    /// The word at this place begins with an arrow.
    Joined(usize),
    /// The word at this place stands where an arrow belongs.
    Instead(usize),
}

/// The form of a statement's word.
pub(crate) fn form_of(word: &str) -> Option<Form> {
    if let Some(parts) = parts_of(&FORMS, word) {
        return Some(Form {
            parts,
            starts: false,
        });
    }
    let blocking = word.strip_prefix("i")?;
    let parts = parts_of(FORMS.get(..BOTH)?, blocking)?;
    Some(Form {
        parts,
        starts: true,
    })
}

fn parts_of(forms: &[(&str, &'static str)], word: &str) -> Option<&'static str> {
    for (name, parts) in forms {
        if *name == word {
            return Some(parts);
        }
    }
    None
}

/// The first place at which a line's words differ from a form, of which the words from the third on are the parts. Of words too many it is the
/// first that can't name what the form has there.
pub(crate) fn misfit_of(form: Form, words: &[&str]) -> Option<Misfit> {
    match misfit_in(form, words)? {
        Misfit::Surplus(place) if goes_on(words, place) => Some(Misfit::Parted(place)),
        Misfit::Surplus(place) => Some(Misfit::Surplus(nameless(form, words).unwrap_or(place))),
        other => Some(other),
    }
}

/// Whether the word at this place goes on with a list of the one before: a comma stands between.
pub(crate) fn goes_on(words: &[&str], place: usize) -> bool {
    let (Some(word), Some(before)) = (words.get(place), words.get(place.saturating_sub(1))) else {
        return false;
    };
    before.as_bytes().last() == Some(&b',') || word.as_bytes().first() == Some(&b',')
}

fn misfit_in(form: Form, words: &[&str]) -> Option<Misfit> {
    let behind = if form.starts { "-> D" } else { "" };
    let has_arrow = form.starts || form.parts.contains("->");
    let mut at = 2;
    for part in form
        .parts
        .split_whitespace()
        .chain(behind.split_whitespace())
    {
        match fit(part, words, at, has_arrow) {
            Ok(next) => at = next,
            Err(misfit) => return Some(misfit),
        }
    }
    if at < words.len() {
        return Some(Misfit::Surplus(at));
    }
    None
}

// The first place at which a communicator or a request is to be named, and the word doesn't begin as a name.
fn nameless(form: Form, words: &[&str]) -> Option<usize> {
    for (nth, part) in form.parts.split_whitespace().enumerate() {
        let place = nth.saturating_add(2);
        if (part == "C" || part == "Q") && !is_name(words.get(place)?) {
            return Some(place);
        }
    }
    None
}

fn is_name(word: &str) -> bool {
    match word.as_bytes().first() {
        Some(first) => first.is_ascii_lowercase(),
        None => false,
    }
}

// The place behind a part that stands at this one.
fn fit(part: &'static str, words: &[&str], at: usize, has_arrow: bool) -> Result<usize, Misfit> {
    if part == "ITEMS" || part == ".." {
        return Ok(behind_items(words, at));
    }
    let Some(word) = words.get(at) else {
        return Err(Misfit::Missing(part, at));
    };
    if part == "->" {
        return fit_arrow(word, words, at);
    }
    if *word != "->" {
        return Ok(at.saturating_add(1));
    }
    if has_arrow {
        return Err(Misfit::Missing(part, at));
    }
    Err(Misfit::Surplus(at))
}

// The same of an arrow, where this word stands.
fn fit_arrow(word: &str, words: &[&str], at: usize) -> Result<usize, Misfit> {
    if word == "->" {
        return Ok(at.saturating_add(1));
    }
    if word.starts_with("->") {
        return Err(Misfit::Joined(at));
    }
    if words.contains(&"->") {
        return Err(Misfit::Surplus(at));
    }
    if words.len().saturating_sub(at) == 2 {
        return Err(Misfit::Instead(at));
    }
    Err(Misfit::Missing("->", at))
}

// The place of an arrow from this one on, or behind all words.
fn behind_items(words: &[&str], at: usize) -> usize {
    let items = words
        .get(at..)
        .unwrap_or(&[])
        .iter()
        .take_while(|word| **word != "->")
        .count();
    at.saturating_add(items)
}

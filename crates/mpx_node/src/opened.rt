//! How far a process is on a context that it has opened.
ghost use Rattle.std.specs.Prelude.{◌≡◌, ◌+◌, ◌-◌, drop, length, nat_le, slice_get, true, false};
ghost use Rattle.std.specs.Option.{option_copied, option_map_or};
ghost use Rattle.std.specs.BTreeMap.{get};
ghost use Rattle.mpx_name.specs.Order.{name_cmp};

use crate::finished::Finished;
use mpx_name::Name;
use std::alloc::Global;
use std::collections::{BTreeMap, VecDeque};

// What a process has done on a context that it has opened: how many calls it has posted, the results of those that it has
// harvested, of which there are no more, and whether it has posted a free. That isn't looked up on the board, which tells
// nothing else of a context that is dead. The first results may be gone: then those that follow are left.
#[derive(Debug, Drop)]
pub struct Opened {
    pub posted: u32,
    pub gone: u32,
    pub results: VecDeque<Finished>,
    pub freed: bool,
    ghost counted: { nat_le (gone + length results.items) posted ≡ true },
}

impl Opened {
    ghost use Rattle.mpx_node.specs.Nodes.{fresh, is_fine_free, is_past_free};
    ghost use Rattle.mpx_node.specs.Stored.{count_gone, stored_at};
    ghost use Rattle.mpx_node.specs.Opened.{lets_go, opened_of};

    // Before any post.
    pub fn new(alloc: Global) -> Opened
        ensures { opened_of result ≡ fresh }
    {
        Opened {
            posted: 0,
            gone: 0,
            results: VecDeque::new(alloc),
            freed: false,
        }
    }

    // The result that it has of a call.
    pub fn result(&self, call: u32) -> Option<&Finished>
        ensures { option_copied result ≡ stored_at (opened_of self.now).results call }
    {
        if call < self.gone {
            return None;
        }
        self.results.get((call - self.gone) as usize)
    }

    // Whether the last result is that of a free whose row is fine, and the number is past it.
    pub fn is_past_free(&self, number: u32) -> bool
        ensures { result ≡ is_past_free (opened_of self.now).results number }
    {
        self.ends_by_free() && self.front() <= number
    }

    // Whether the last result is that of a free whose row is fine.
    fn ends_by_free(&self) -> bool
        ensures { result ≡ option_map_or is_fine_free (slice_get self.now.results.items (length self.now.results.items - 1)) false }
    {
        match self.results.back() {
            None => false,
            Some(last) => last.is_fine_free(),
        }
    }

    // How many calls it has harvested.
    pub fn front(&self) -> u32
        ensures { result ≡ length (opened_of self.now).results }
    {
        self.count()
    }

    // How many results are gone.
    pub fn gone(&self) -> u32
        ensures { result ≡ count_gone (opened_of self.now).results }
    {
        self.gone
    }

    // How many results there were.
    fn count(&self) -> u32
        ensures { result ≡ self.now.gone + length self.now.results.items }
    {
        let posted = self.posted as usize;
        prove!(self.results.len() <= posted);
        prove!(self.gone as usize + self.results.len() <= posted);
        self.gone + self.results.len() as u32
    }

    // Lets the results of calls below this one go, but never the newest.
    pub fn let_go(&mut self, below: u32)
        ensures { opened_of self.new ≡ lets_go below (opened_of self.old) }
    {
        let gone = below.min(self.count().saturating_sub(1));
        if self.gone < gone {
            drop_first(&mut self.results, gone - self.gone);
            self.gone = gone;
        }
    }
}

// Drops so many results from the front.
fn drop_first(results: &mut VecDeque<Finished>, more: u32)
    ensures { results.new.items ≡ drop more results.old.items }
{
    for _ in 0..more {
        results.pop_front();
    }
}

// What is opened with this name. The last name and the first are looked at before the others: the last is mostly the one that was
// opened last, and the first is the world.
pub fn opened_on<'a>(opened: &'a BTreeMap<Name, Opened>, name: &Name) -> Option<&'a Opened>
    ensures { option_copied result ≡ get name_cmp opened.now name.now }
{
    if let Some((last, found)) = opened.last_key_value() {
        if last == name {
            return Some(found);
        }
    }
    if let Some((first, found)) = opened.first_key_value() {
        if first == name {
            return Some(found);
        }
    }
    opened.get(name)
}

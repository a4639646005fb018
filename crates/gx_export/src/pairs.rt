//! The entries of two trees side by side, so that what differs is found in one pass over both.

ghost use Rattle.std.specs.Prelude.{◌≡◌, ◌↔◌, [], IsTrue};
ghost use Rattle.std.specs.Iterator.{item_count};
ghost use Rattle.std.specs.Map.Iter.{TakesFirst};
ghost use Rattle.gx_object.specs.Entries.{mark_of, shown};
ghost use Rattle.gx_export.specs.Pairs.{entry_order, first_order, is_same, left_from, name_if, shown_option, shown_pair, side_by_side};
ghost use Rattle.gx_object.specs.Parts.{bytes_if};

use gx_object::{Entry, Mode, Name, TreeEntries, compare_marked};
use std::cmp::Ordering;
use std::marker::Model;
use std::mem::replace;

/// What an old and a new tree have at one component, as files or as directories: an entry of one of them, or of both.
#[derive(Clone, Copy)]
pub struct Pair<'a> {
    pub old: Option<Entry<'a>>,
    pub new: Option<Entry<'a>>,
}

/// The pairs of two trees' entries, in the order that the entries of a tree have. It is seen as the list of those left.
#[derive(Drop)]
pub struct Pairs<'a> {
    old: Option<Entry<'a>>,
    olds: TreeEntries<'a>,
    new: Option<Entry<'a>>,
    news: TreeEntries<'a>,
}

impl<'a> Model for Pairs<'a> {
    ghost use Rattle.std.specs.Prelude.{List};
    ghost use Rattle.gx_model.specs.Objects.{Entry};

    ghost Value = { List (List Entry × List Entry) };

    ghost use Rattle.gx_export.specs.Pairs.{entry_order, left_from, side_by_side};

    ghost view = { λ it. side_by_side entry_order (left_from it.old it.olds)
        (left_from it.new it.news) };
}

impl<'a> Pairs<'a> {
    /// The pairs of all entries. Takes no memory.
    pub fn new(olds: TreeEntries<'a>, news: TreeEntries<'a>) -> Pairs<'a>
        ensures { result ≡ side_by_side entry_order olds.entry news.entry }
    {
        let mut olds = olds;
        let mut news = news;
        let old = olds.next();
        let new = news.next();
        Pairs {
            old,
            olds,
            new,
            news,
        }
    }

    /// Whether none is left. Takes no memory.
    pub fn is_empty(&self) -> bool
        ensures { IsTrue result ↔ (self.now ≡ []) }
    {
        self.old.is_none() && self.new.is_none()
    }
}

impl<'a> Iterator for Pairs<'a> {
    type Item = Pair<'a>;

    ghost next_gives = { TakesFirst shown_pair };

    ghost remaining = { item_count (λ rest. rest) };

    fn next(&mut self) -> Option<Pair<'a>> {
        match first_of(&self.old, &self.new)? {
            Ordering::Less => Some(Pair {
                old: take(&mut self.old, &mut self.olds),
                new: None,
            }),
            Ordering::Equal => Some(Pair {
                old: take(&mut self.old, &mut self.olds),
                new: take(&mut self.new, &mut self.news),
            }),
            Ordering::Greater => Some(Pair {
                old: None,
                new: take(&mut self.new, &mut self.news),
            }),
        }
    }
}

/// The next entry of a tree, which the one behind it takes the place of.
fn take<'a>(next: &mut Option<Entry<'a>>, rest: &mut TreeEntries<'a>) -> Option<Entry<'a>>
    ensures next { result ≡ next.old }
    ensures left { left_from next.new rest.new ≡ rest.old }
{
    let behind = rest.next();
    replace(next, behind)
}

/// Which of two entries comes first, where there is one.
fn first_of(old: &Option<Entry<'_>>, new: &Option<Entry<'_>>) -> Option<Ordering>
    ensures { result ≡ first_order (shown_option old.now) (shown_option new.now) }
{
    match old {
        None => match new {
            None => None,
            Some(_) => Some(Ordering::Greater),
        },
        Some(old) => match new {
            None => Some(Ordering::Less),
            Some(new) => Some(compare(old, new)),
        },
    }
}

/// The order that entries have in a tree.
fn compare(a: &Entry<'_>, b: &Entry<'_>) -> Ordering
    ensures { result ≡ entry_order (shown a.now) (shown b.now) }
{
    compare_marked(a.component, mark(a.mode), b.component, mark(b.mode))
}

/// What follows a component in that order.
fn mark(mode: Mode) -> &'static [u8]
    ensures { result.now ≡ mark_of mode }
{
    if mode == Mode::Dir { b"/" } else { b"" }
}

/// Whether both entries are there and name the same.
pub fn is_same(pair: &Pair<'_>) -> bool
    ensures { result ≡ is_same (shown_pair pair.now) }
{
    match pair.old {
        None => false,
        Some(old) => match pair.new {
            None => false,
            Some(new) => old.mode == new.mode && old.name == new.name,
        },
    }
}

/// The name of what an entry names, where there is one.
pub fn name_in(entry: &Option<Entry<'_>>) -> Option<Name>
    ensures { bytes_if result ≡ name_if entry.now }
{
    match entry {
        None => None,
        Some(entry) => Some(entry.name),
    }
}

//! The earlier files whose components the entries of a tree may repeat.

ghost use Rattle.std.specs.Prelude.{◌≡◌, ◌≤◌, ◌<◌, ◌+◌, false, true, ℕ, length, get_or};
ghost use Rattle.gx_object.specs.Order.{MeetsAlike, is_added, is_kept, is_left};
ghost use Rattle.gx_object.specs.Entries.{shown};

use crate::{Entry, Mode};

/// Components below this length are remembered. Those in a path are shorter.
pub(crate) const MOST: usize = 4096;

/// The earlier files that an entry's component begins with, where the components between begin with them too: no later
/// entry but one behind these can have the component of another file.
#[derive(Drop)]
pub(crate) struct EarlierFiles {
    // Whether the component's front of each length below `above` is such a file's.
    pub(crate) is_file: [bool; 4096],
    pub(crate) above: usize,
    ghost room: { above ≤ 4096 },
}

impl EarlierFiles {
    ghost use Rattle.gx_object.specs.Passing.{MeetsPast};

    pub(crate) fn none() -> EarlierFiles
        ensures { result.above ≡ 0 }
    {
        EarlierFiles {
            is_file: [false; 4096],
            above: 0,
        }
    }

    /// Goes on to the next entry, and answers whether its component is that of an earlier file.
    ///
    /// Cost: over a whole tree, the length of the components.
    pub(crate) fn meet(&mut self, first: &Entry<'_>, next: &Entry<'_>) -> bool
        requires within { self.old.above ≤ length first.now.component.now }
        ensures within { result ≡ false → self.new.above ≤ length next.now.component.now }
        ensures met { MeetsPast self.old self.new first.now next.now result }
    {
        let len = first.component.len();
        if is_added(first, next) {
            add(&mut self.is_file, self.above, len);
            self.above = len + 1;
            return len == next.component.len();
        }
        self.pass(first, next)
    }

    /// The same, where the first entry isn't to be remembered.
    pub(crate) fn pass(&mut self, first: &Entry<'_>, next: &Entry<'_>) -> bool
        requires within { self.old.above ≤ length first.now.component.now }
        requires other { is_added (shown first.now) (shown next.now) ≡ false }
        ensures within { result ≡ false → self.new.above ≤ length next.now.component.now }
        ensures met { MeetsPast self.old self.new first.now next.now result }
    {
        self.above = kept(&self.is_file, self.above, first.component, next.component);
        next.component.len() < self.above
    }
}

/// Whether an entry is a file to be remembered.
fn is_added(first: &Entry<'_>, next: &Entry<'_>) -> bool
    ensures { result ≡ is_added (shown first.now) (shown next.now) }
{
    first.component.len() < MOST && is_front(first, next)
}

/// Whether an entry is a file, and the next one's component begins with its own.
pub(crate) fn is_front(first: &Entry<'_>, next: &Entry<'_>) -> bool
    ensures { result ≡ is_kept (shown first.now) (shown next.now) }
{
    first.mode != Mode::Dir && next.component.starts_with(first.component)
}

/// Adds the file at a length to those below another.
fn add(is_file: &mut [bool], above: usize, len: usize)
    requires within { above ≤ len }
    requires room { len < length is_file.old }
    ensures len { length is_file.new ≡ length is_file.old }
    ensures below { (n : ℕ) → n < above → get_or is_file.new n false ≡ get_or is_file.old n false }
    ensures between { (n : ℕ) → above ≤ n → n < len → get_or is_file.new n false ≡ false }
    ensures added { get_or is_file.new len false ≡ true }
{
    for n in above..len {
        is_file[n] = false;
    }
    is_file[len] = true;
}

/// Above which length no file is left: those that the next component doesn't begin with are passed by.
fn kept(is_file: &[bool], above: usize, first: &[u8], next: &[u8]) -> usize
    requires room { above ≤ length is_file.now }
    requires within { above ≤ length first.now }
    ensures met { MeetsAlike is_file.now first.now next.now above result }
    ensures within { result ≤ above }
    ensures top { (n : ℕ) → result ≡ n + 1 → is_left is_file.now n first.now next.now ≡ true }
{
    let mut rest = above;
    while rest > 0 {
        let len = rest - 1;
        if is_left(is_file, len, first, next) {
            return rest;
        }
        rest = len;
    }
    0
}

/// Whether the front of this length is a file's component, and the next component's front.
fn is_left(is_file: &[bool], len: usize, first: &[u8], next: &[u8]) -> bool
    requires { (len < length is_file.now) × (len ≤ length first.now) }
    ensures { result ≡ is_left is_file.now len first.now next.now }
{
    is_file[len] && next.starts_with(&first[..len])
}

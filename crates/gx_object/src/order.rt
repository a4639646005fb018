//! Which lists of entries are a tree's: the components are proper and differ, and a directory is sorted as if its
//! component ended in a slash.

ghost use Rattle.std.specs.Prelude.{◌≡◌, ◌≤◌, ◌++◌, ◌∷◌, false, true, length, map, nat_lt, IsTrue};
ghost use Rattle.std.specs.List.{list_all};
ghost use Rattle.std.specs.Ordering.{nat_cmp};
ghost use Rattle.std.specs.Cmp.Lexicographic.{slice_cmp};
ghost use Rattle.gx_model.specs.Texts.Paths.{is_component};
ghost use Rattle.gx_model.specs.Objects.{entry_key, is_canonical};
ghost use Rattle.gx_object.specs.Order.{comes_before, is_kept, is_long_repeated, meets};
ghost use Rattle.gx_object.specs.Entries.{mark_of, shown};
ghost use Rattle.gx_object.specs.Passing.{LeadsPast};

use crate::earlier_files::{EarlierFiles, MOST, is_front};
use crate::{Entry, Mode};
use std::cmp::Ordering;

/// Whether the entries are those of a tree, in its order: each component is proper and no two are equal, and the
/// components, with a slash after that of a directory, stand in byte order. The empty list is canonical.
///
/// Cost: the length of the entries and, for each file whose component has 4,096 bytes or more, which no path leads to, the
/// length of the entries after it whose components begin with its own. Takes no memory. Source: Pro Git, "Git Objects".
pub fn is_canonical(entries: &[Entry<'_>]) -> bool
    ensures { result ≡ is_canonical (map shown entries.now) }
{
    let Some((mut before, mut rest)) = entries.split_first() else {
        return true;
    };
    let mut files = EarlierFiles::none();
    while let Some((next, after)) = rest.split_first() {
        if !leads(&mut files, before, next, after) {
            return false;
        }
        before = next;
        rest = after;
    }
    is_component(before.component)
}

/// Whether an entry may stand before the next one and the entries after that, and none of them has an earlier file's
/// component as far as the next one tells.
fn leads(files: &mut EarlierFiles, first: &Entry<'_>, next: &Entry<'_>, after: &[Entry<'_>]) -> bool
    requires { files.old.above ≤ length first.now.component.now }
    ensures within { result ≡ true → files.new.above ≤ length next.now.component.now }
    ensures leads { LeadsPast files.old files.new first.now next.now (map shown after.now) result }
{
    is_component(first.component)
        && comes_before(first, next)
        && !is_long_repeated(first, next, after)
        && !files.meet(first, next)
}

/// Whether a file whose component is too long to be remembered stands again behind itself. The order leaves that to a
/// directory after a file, and lets only entries stand between them whose components begin with the file's.
fn is_long_repeated(first: &Entry<'_>, next: &Entry<'_>, after: &[Entry<'_>]) -> bool
    ensures { result ≡ is_long_repeated (shown first.now) (shown next.now ∷ map shown after.now) }
{
    first.component.len() >= MOST
        && is_front(first, next)
        && (next.component == first.component || meets(first.component, after))
}

/// Whether one of the first entries, whose components begin with this one, has it.
fn meets(component: &[u8], others: &[Entry<'_>]) -> bool
    ensures { result ≡ meets component.now (map shown others.now) }
{
    for other in others {
        if !other.component.starts_with(component) {
            return false;
        }
        if other.component == component {
            return true;
        }
    }
    false
}

/// Whether the bytes are a component of a path: not empty, not `.` or `..`, with no slash and no NUL.
pub(crate) fn is_component(bytes: &[u8]) -> bool
    ensures { result ≡ is_component bytes.now }
{
    has_bytes(bytes);
    !bytes.is_empty()
        && bytes != b".".as_slice()
        && bytes != b"..".as_slice()
        && !bytes.contains(&b'/')
        && !bytes.contains(&0)
}

/// Each number of a text is a byte.
pub(crate) fn has_bytes(text: &[u8])
    ensures { list_all (λ b. nat_lt b 256) text.now ≡ true }
{}

pub(crate) fn comes_before(a: &Entry<'_>, b: &Entry<'_>) -> bool
    ensures { result ≡ comes_before (shown a.now) (shown b.now) }
{
    compare_keys(a, b).is_lt()
}

/// Whether two components differ where both have a byte, and the first is the less there. Then it comes before the other,
/// whatever their modes are, and the other doesn't begin with it. Else nothing is told.
pub(crate) fn is_apart(first: &Entry<'_>, next: &Entry<'_>) -> bool
    ensures order { IsTrue result → comes_before (shown first.now) (shown next.now) ≡ true }
    ensures front { IsTrue result → is_kept (shown first.now) (shown next.now) ≡ false }
{
    let (first, next) = (first.component, next.component);
    let both = first.len().min(next.len());
    first[..both].cmp(&next[..both]).is_lt()
}

fn compare_keys(a: &Entry<'_>, b: &Entry<'_>) -> Ordering
    ensures { result ≡ slice_cmp nat_cmp (entry_key (shown a.now)) (entry_key (shown b.now)) }
{
    compare_marked(a.component, mark(a.mode), b.component, mark(b.mode))
}

/// The order of two components with what follows each in a tree's order: a slash after that of a directory.
///
/// Cost: the bytes up to the first that differ. What both components have first is compared at once. Takes no memory.
pub fn compare_marked(
    first: &[u8],
    first_mark: &[u8],
    second: &[u8],
    second_mark: &[u8],
) -> Ordering
    ensures { result ≡ slice_cmp nat_cmp (first.now ++ first_mark.now)
        (second.now ++ second_mark.now) }
{
    let both = first.len().min(second.len());
    match first[..both].cmp(&second[..both]) {
        Ordering::Equal => {
            compare_rests(&first[both..], first_mark, &second[both..], second_mark)
        }
        different => different,
    }
}

/// The same byte by byte.
fn compare_rests(first: &[u8], first_mark: &[u8], second: &[u8], second_mark: &[u8]) -> Ordering
    ensures { result ≡ slice_cmp nat_cmp (first.now ++ first_mark.now)
        (second.now ++ second_mark.now) }
{
    let text = first.iter().chain(first_mark.iter());
    text.cmp(second.iter().chain(second_mark.iter()))
}

/// What is added to a component for the order.
fn mark(mode: Mode) -> &'static [u8]
    ensures { result.now ≡ mark_of mode }
{
    if mode == Mode::Dir { b"/" } else { b"" }
}

//! Revisions as texts.

ghost use Rattle.std.specs.Prelude.{◌≡◌, ◌≤◌, Err, IfErr, IsOk, OnOk, length, [], map};
ghost use Rattle.gx_model.specs.Faults.{Gives, NeedsNoMemory};
ghost use Rattle.gx_model.specs.Texts.{cut_at};
ghost use Rattle.gx_model.specs.Revisions.{base_and_suffixes, base_of, optional_path, revision_of, suffixes_of, with_path};
ghost use Rattle.gx_rev.specs.RevFaults.{FaultsComeFirst, fault_of};
ghost use Rattle.gx_rev.specs.Views.{borrowed, shown_suffix};

use crate::RevFault;
use crate::fault::both;
use crate::suffix::Suffix;
use gx_text::{TreePath, cut, is_ref_name};
use memchr::memchr2;
use std::alloc::Allocator;
use std::marker::Model;

/// A revision: a base, then suffixes, and where a `:` follows, a path.
/// Source: gitrevisions(7), "Specifying Revisions".
#[derive(Drop)]
pub struct Revision<A: Allocator> {
    pub(crate) base: Vec<u8, A>,
    pub(crate) suffixes: Vec<Suffix, A>,
    pub(crate) path: Option<TreePath<A>>,
}

impl<A: Allocator> Model for Revision<A> {
    ghost use Rattle.gx_model.specs.Revisions.{Revision};

    ghost Value = { Revision };

    ghost use Rattle.gx_rev.specs.Views.{shown_revision};

    ghost view = { λ r. shown_revision r.base.items r.suffixes.items r.path };
}

impl<A: Allocator + Copy> Revision<A> {
    /// The revision that a text gives. Its base is `@`, which is HEAD, or a ref name.
    ///
    /// BadRevision where the base is neither, or a suffix is none; BadPath and PathTooLong where no path follows the
    /// `:`. The first fault from the left is answered, and OutOfMemory where there is none and a growth is refused.
    /// Cost: the length. Takes memory for the base, the suffixes and the path.
    /// Source: gitrevisions(7), "Specifying Revisions".
    #[tactic(auto, unfolding(gx_model::specs::Revisions::revision_of))]
    pub fn read(alloc: A, text: &[u8]) -> Result<Revision<A>, RevFault>
        ensures revision { Gives fault_of (λ r. r) result (revision_of text.now) }
        ensures first { FaultsComeFirst result (revision_of text.now) }
    {
        let (front, path) = cut_path(text);
        let (base, suffixes) = cut_base(front);
        let base = base_named(base)?;
        let (suffixes, path) = both(read_suffixes(alloc, suffixes), read_path(alloc, path))?;
        Ok(Revision {
            base: Vec::from_slice(alloc, base)?,
            suffixes,
            path,
        })
    }
}

impl<A: Allocator> Revision<A> {
    /// The ref name or the digits that it begins with; `HEAD` for `@`. Takes no memory.
    pub fn base(&self) -> &[u8]
        ensures { result.now ≡ self.now.base }
    {
        self.base.as_slice()
    }

    /// The suffixes behind the base, from left to right. Takes no memory.
    pub fn suffixes(&self) -> &[Suffix]
        ensures { map shown_suffix result.now ≡ self.now.suffixes }
    {
        self.suffixes.as_slice()
    }

    /// The path behind the `:`, where there is one. Takes no memory.
    pub fn path(&self) -> Option<&TreePath<A>>
        ensures { borrowed result ≡ self.now.path }
    {
        self.path.as_ref()
    }
}

/// What stands before the first `:`, and what follows it.
fn cut_path(text: &[u8]) -> (&[u8], Option<&[u8]>)
    ensures front { result.0.now ≡ (with_path text.now (cut_at 58 text.now)).0 }
    ensures path { borrowed result.1 ≡ (with_path text.now (cut_at 58 text.now)).1 }
{
    match cut(text, b':') {
        Some((front, path)) => (front, Some(path)),
        None => (text, None),
    }
}

/// What stands before the first `^` or `~`, and what begins there.
fn cut_base(text: &[u8]) -> (&[u8], &[u8])
    ensures base { result.0.now ≡ (base_and_suffixes text.now).0 }
    ensures suffixes { base_and_suffixes result.1.now ≡ ([], (base_and_suffixes text.now).1) }
    ensures within { length result.1.now ≤ length text.now }
{
    match memchr2(b'^', b'~', text) {
        Some(end) => (&text[..end], &text[end..]),
        None => (text, &text[text.len()..]),
    }
}

/// The ref that a base names; `@` is HEAD.
fn base_named(text: &[u8]) -> Result<&[u8], RevFault>
    ensures base { Gives fault_of (λ base. base.now) result (base_of text.now) }
    ensures memory { NeedsNoMemory RevFault.OutOfMemory result }
{
    if text == b"@".as_slice() {
        return Ok(b"HEAD");
    }
    if !is_ref_name(text) {
        return Err(RevFault::BadRevision);
    }
    Ok(text)
}

/// The suffixes of a text that begins with one, or is empty.
fn read_suffixes<A: Allocator + Copy>(alloc: A, text: &[u8]) -> Result<Vec<Suffix, A>, RevFault>
    requires { (base_and_suffixes text.now).0 ≡ [] }
    ensures suffixes { Gives fault_of (λ suffixes. map shown_suffix suffixes.items) result
        (suffixes_of (base_and_suffixes text.now).1) }
    ensures first { FaultsComeFirst result (suffixes_of (base_and_suffixes text.now).1) }
{
    let mut suffixes = Vec::new(alloc);
    let mut rest = text;
    while let Some((mark, after)) = rest.split_first() {
        let (text, others) = cut_base(after);
        let suffix = Suffix::read(*mark, text)?;
        let Ok(()) = suffixes.push(suffix) else {
            check_suffixes(others)?;
            return Err(RevFault::OutOfMemory);
        };
        rest = others;
    }
    Ok(suffixes)
}

/// Answers the first fault of the suffixes of a text that begins with one, or is empty.
fn check_suffixes(text: &[u8]) -> Result<(), RevFault>
    requires { (base_and_suffixes text.now).0 ≡ [] }
    ensures right { OnOk result (IsOk (suffixes_of (base_and_suffixes text.now).1)) }
    ensures fault { IfErr result (λ fault. suffixes_of (base_and_suffixes text.now).1
        ≡ Err (fault_of fault)) }
    ensures memory { NeedsNoMemory RevFault.OutOfMemory result }
{
    let mut rest = text;
    while let Some((mark, after)) = rest.split_first() {
        let (text, others) = cut_base(after);
        let _suffix = Suffix::read(*mark, text)?;
        rest = others;
    }
    Ok(())
}

fn read_path<A: Allocator + Copy>(
    alloc: A,
    text: Option<&[u8]>,
) -> Result<Option<TreePath<A>>, RevFault>
    ensures path { Gives fault_of (λ path. path) result (optional_path (borrowed text.entry)) }
    ensures first { FaultsComeFirst result (optional_path (borrowed text.entry)) }
{
    match text {
        None => Ok(None),
        Some(text) => Ok(Some(TreePath::read(alloc, text)?)),
    }
}

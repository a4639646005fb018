//! The refs that differ between two times, as a report. Source: githooks(5), "post-receive".
ghost use Rattle.std.specs.Prelude.{◌≡◌, ◌++◌, ◌∷◌, [], IfOk, IsTrue, OnOk};
ghost use Rattle.std.specs.FinMap.Entries.{is_sorted};
ghost use Rattle.gx_model.specs.Texts.{byte_cmp};
ghost use Rattle.gx_object.specs.Parts.{bytes_if};
ghost use Rattle.gx_repo.specs.Reporting.{IsNext, IsReport, behind, differing, digits_or_zeros, line_where_they_differ, object_first};

use crate::fault::OutOfMemory;
use crate::refs::Refs;
use gx_object::Name;
use std::alloc::{AllocError, Allocator};

/// A line for each ref that differs between two times, in the byte order of names: the digits of the object that it held, a
/// space, those of the object that it holds, a space, its name and an LF. Forty zeros stand for no object.
///
/// `OutOfMemory`: a growth was refused. Cost: the refs, and the length of the lines. Memory: the lines. Source: githooks(5),
/// "post-receive".
pub fn report_changes<A: Allocator + Copy>(
    alloc: A,
    before: Refs<'_, A>,
    after: Refs<'_, A>,
) -> Result<Vec<u8, A>, OutOfMemory>
    ensures { IfOk result (λ report. IsReport before.entry after.entry report.items) }
{
    let mut report = Vec::new(alloc);
    put_changes(&mut report, before, after)?;
    Ok(report)
}

/// Appends the lines of the refs that differ.
fn put_changes<A: Allocator + Copy>(
    report: &mut Vec<u8, A>,
    before: Refs<'_, A>,
    after: Refs<'_, A>,
) -> Result<(), AllocError>
    requires empty { report.old.items ≡ [] }
    ensures { OnOk result (IsReport before.entry after.entry report.new.items) }
{
    let mut before = before;
    let mut after = after;
    while let Some(name) = next_name(&before, &after) {
        let old = take_object(&mut before, name);
        let new = take_object(&mut after, name);
        put_change(report, name, old, new)?;
    }
    Ok(())
}

/// The first name of the refs at both times; none where there are no refs.
fn next_name<'a, A: Allocator + Copy>(before: &Refs<'a, A>, after: &Refs<'a, A>) -> Option<&'a [u8]>
    ensures first { IsNext before.now after.now result }
    ensures before { IsTrue (is_sorted byte_cmp before.now) }
    ensures after { IsTrue (is_sorted byte_cmp after.now) }
{
    let Some(held) = before.rest.first() else {
        return Some(after.rest.first()?.name.as_slice());
    };
    let Some(holds) = after.rest.first() else {
        return Some(held.name.as_slice());
    };
    if holds.name.as_slice() < held.name.as_slice() {
        Some(holds.name.as_slice())
    } else {
        Some(held.name.as_slice())
    }
}

/// Takes the first ref, where it has this name, and answers its object.
fn take_object<A: Allocator + Copy>(refs: &mut Refs<'_, A>, name: &[u8]) -> Option<Name>
    ensures object { bytes_if result ≡ object_first refs.old name.now }
    ensures behind { refs.new ≡ behind refs.old name.now }
{
    let (first, rest) = refs.rest.split_first()?;
    if first.name.as_slice() == name {
        refs.rest = rest;
        Some(first.object)
    } else {
        None
    }
}

/// Appends the line of a ref, where its objects differ.
fn put_change<A: Allocator + Copy>(
    report: &mut Vec<u8, A>,
    name: &[u8],
    old: Option<Name>,
    new: Option<Name>,
) -> Result<(), AllocError>
    ensures { OnOk result (report.new.items ≡ report.old.items
        ++ line_where_they_differ name.now (differing old new)) }
{
    if old == new {
        return Ok(());
    }
    put_digits(report, old)?;
    put_digits(report, new)?;
    report.extend_from_slice(name)?;
    report.push(b'\n')?;
    Ok(())
}

/// Appends an object's digits or forty zeros, and a space.
fn put_digits<A: Allocator + Copy>(
    report: &mut Vec<u8, A>,
    object: Option<Name>,
) -> Result<(), AllocError>
    ensures { OnOk result (report.new.items ≡ report.old.items
        ++ (digits_or_zeros (bytes_if object) ++ 32 ∷ [])) }
{
    let digits = match object {
        Some(object) => object.hex(),
        None => [b'0'; 40],
    };
    report.extend_from_slice(digits.as_slice())?;
    report.push(b' ')?;
    Ok(())
}

//! The lines of the paths at which two revisions differ. Source: git-diff-tree(1), "RAW OUTPUT FORMAT".

ghost use Rattle.std.specs.Prelude.{◌≡◌, ◌++◌, ◌∷◌, [], OnOk};
ghost use Rattle.gx_differences.specs.Listed.{shown_difference, shown_leaf};
ghost use Rattle.gx_diff.specs.Lines.{files_fields, line_of, mode_field, name_field, path_field, status, status_fields, status_of, type_of};

use gx_asks::DiffForm;
use gx_differences::{Difference, FileLeaf};
use gx_export::mode_digits;
use gx_object::Mode;
use gx_text::put_printed;
use std::alloc::{AllocError, Allocator};

/// Appends the line of a path in a form: of those that tell of no path, nothing.
pub(crate) fn put_line<A: Allocator + Copy>(
    text: &mut Vec<u8, A>,
    form: DiffForm,
    nul: bool,
    difference: &Difference<A>,
) -> Result<(), AllocError>
    ensures { OnOk result (text.new.items ≡ text.old.items
        ++ line_of form nul (shown_difference difference.now)) }
{
    match form {
        DiffForm::Status => put_status(text, nul, difference),
        DiffForm::Paths => put_path(text, nul, difference.path.joined()),
        DiffForm::Raw => {
            put_files(text, difference)?;
            put_status(text, nul, difference)
        }
        DiffForm::Count | DiffForm::Patch | DiffForm::Quiet => Ok(()),
    }
}

/// Appends the status and the path.
fn put_status<A: Allocator + Copy>(
    text: &mut Vec<u8, A>,
    nul: bool,
    difference: &Difference<A>,
) -> Result<(), AllocError>
    ensures { OnOk result (text.new.items ≡ text.old.items
        ++ status_fields nul (shown_difference difference.now)) }
{
    text.push(status_of(difference))?;
    text.push(if nul { 0 } else { b'\t' })?;
    put_path(text, nul, difference.path.joined())
}

/// Appends a path, as it ends a line.
fn put_path<A: Allocator + Copy>(
    text: &mut Vec<u8, A>,
    nul: bool,
    path: &[u8],
) -> Result<(), AllocError>
    ensures { OnOk result (text.new.items ≡ text.old.items ++ path_field nul path.now) }
{
    if nul {
        text.extend_from_slice(path)?;
        text.push(0)?;
    } else {
        put_printed(text, path)?;
        text.push(b'\n')?;
    }
    Ok(())
}

/// Appends the modes and the names, before and after.
fn put_files<A: Allocator + Copy>(
    text: &mut Vec<u8, A>,
    difference: &Difference<A>,
) -> Result<(), AllocError>
    ensures { OnOk result (text.new.items ≡ text.old.items
        ++ files_fields (shown_difference difference.now)) }
{
    text.push(b':')?;
    put_field(text, mode_field(&difference.old).as_slice())?;
    put_field(text, mode_field(&difference.new).as_slice())?;
    put_field(text, name_field(&difference.old).as_slice())?;
    put_field(text, name_field(&difference.new).as_slice())
}

/// Appends a field and a space.
fn put_field<A: Allocator + Copy>(text: &mut Vec<u8, A>, field: &[u8]) -> Result<(), AllocError>
    ensures { OnOk result (text.new.items ≡ text.old.items ++ field.now ++ 32 ∷ []) }
{
    text.extend_from_slice(field)?;
    text.push(b' ')?;
    Ok(())
}

/// The mode of a file, and zeros where there is none.
fn mode_field(leaf: &Option<FileLeaf>) -> [u8; 6]
    ensures { result ≡ mode_field (shown_leaf leaf.now) }
{
    match leaf {
        None => *b"000000",
        Some(leaf) => mode_digits(leaf.mode),
    }
}

/// The digits of what a file holds, and zeros where there is none. Takes no memory.
///
/// Source: git-diff-tree(1), "RAW OUTPUT FORMAT".
pub fn name_field(leaf: &Option<FileLeaf>) -> [u8; 40]
    ensures { result ≡ name_field (shown_leaf leaf.now) }
{
    match leaf {
        None => *b"0000000000000000000000000000000000000000",
        Some(leaf) => leaf.name.hex(),
    }
}

/// The letter of what became of a path: A where it is new, D where it is gone, T where it has another type, and else M.
/// Takes no memory.
///
/// Source: git-diff-tree(1), "RAW OUTPUT FORMAT".
pub fn status_of<A: Allocator>(difference: &Difference<A>) -> u8
    ensures { result ≡ status_of (shown_difference difference.now) }
{
    status(&difference.old, &difference.new)
}

fn status(old: &Option<FileLeaf>, new: &Option<FileLeaf>) -> u8
    ensures { result ≡ status (shown_leaf old.now) (shown_leaf new.now) }
{
    match old {
        None => b'A',
        Some(old) => match new {
            None => b'D',
            Some(new) => {
                if type_of(old.mode) == type_of(new.mode) {
                    b'M'
                } else {
                    b'T'
                }
            }
        },
    }
}

/// The type of a file: one that may be run is of the type of others.
fn type_of(mode: Mode) -> Mode
    ensures { result ≡ type_of mode }
{
    match mode {
        Mode::Exec => Mode::File,
        mode => mode,
    }
}

//! The text that tells of the paths at which two revisions differ, and the answer.

ghost use Rattle.std.specs.Prelude.{◌≡◌, ◌++◌, IfOk, OnOk};
ghost use Rattle.std.specs.List.{flat_map};
ghost use Rattle.gx_differences.specs.Listed.{shown_differences};
ghost use Rattle.gx_diff.specs.Lines.{diff_text, ends_well, is_count, is_quiet, line_of};

use crate::counts::put_counts;
use crate::lines::put_line;
use gx_asks::{DiffForm, DiffOptions};
use gx_differences::Difference;
use std::alloc::{AllocError, Allocator};

/// The text that tells of these paths: a line for each, or how many there are, or nothing, as for a patch, which `gx_patch` writes.
///
/// Cost: its length, at most four bytes for each of a path's. Memory: the text.
/// Source: git-diff-tree(1), "RAW OUTPUT FORMAT", and `--name-status`, `--name-only`, `-z`.
pub fn text_of<A: Allocator + Copy>(
    alloc: A,
    options: DiffOptions,
    found: &[Difference<A>],
) -> Result<Vec<u8, A>, AllocError>
    ensures { IfOk result (λ text. text.items ≡ diff_text options (shown_differences found.now)) }
{
    let mut text = Vec::new(alloc);
    if is_count(options.form) {
        put_counts(&mut text, found)?;
    } else {
        put_lines(&mut text, options, found)?;
    }
    Ok(text)
}

/// Appends the line of each path.
fn put_lines<A: Allocator + Copy>(
    text: &mut Vec<u8, A>,
    options: DiffOptions,
    found: &[Difference<A>],
) -> Result<(), AllocError>
    ensures { OnOk result (text.new.items ≡ text.old.items
        ++ flat_map (line_of options.form options.nul) (shown_differences found.now)) }
{
    for difference in found {
        put_line(text, options.form, options.nul, difference)?;
    }
    Ok(())
}

/// Whether the answer is yes: it is no where something differs, and the options ask for that. Takes no memory.
///
/// Source: git-diff(1), `--exit-code` and `--quiet`.
pub fn ends_well<A: Allocator>(options: DiffOptions, found: &[Difference<A>]) -> bool
    ensures { result ≡ ends_well options (shown_differences found.now) }
{
    !(options.exit_code || is_quiet(options.form)) || found.is_empty()
}

fn is_count(form: DiffForm) -> bool
    ensures { result ≡ is_count form }
{
    matches!(form, DiffForm::Count)
}

fn is_quiet(form: DiffForm) -> bool
    ensures { result ≡ is_quiet form }
{
    matches!(form, DiffForm::Quiet)
}

//! What is left of a text behind its first items.

ghost use Rattle.std.specs.Prelude.{◌≡◌, ◌≤◌, length, false};
ghost use Rattle.gx_model.specs.Streams.Items.{items_of};
ghost use Rattle.gx_stream.specs.FirstItems.{IsEndOf};
ghost use Rattle.gx_where.specs.Rests.{Reaches, BeginsNoComment, without_first};

use gx_stream::{First, first_item};

/// How many items a text has, before its end or a fault.
pub(crate) fn count_items(text: &[u8]) -> u64
    ensures { result ≡ length (items_of text.now false).items }
{
    let mut rest = text;
    let mut count = 0;
    loop {
        match first_item(rest) {
            First::Item(_, next) => {
                rest = next;
                count += 1;
            }
            First::Comment(next) => rest = next,
            First::End(_) => return count,
        }
    }
}

/// What is left of a text behind so many items, and behind the comments that follow them.
pub(crate) fn rest_behind(text: &[u8], count: u64) -> &[u8]
    ensures end { IsEndOf text.now result.now }
    ensures reached { Reaches text.now result.now }
    ensures items { items_of result.now false ≡ without_first count (items_of text.now false) }
    ensures item { BeginsNoComment result.now }
{
    let mut rest = text;
    let mut left = count;
    loop {
        match first_item(rest) {
            First::Item(_, next) => {
                if left == 0 {
                    return rest;
                }
                rest = next;
                left -= 1;
            }
            First::Comment(next) => rest = next,
            First::End(_) => return rest,
        }
    }
}

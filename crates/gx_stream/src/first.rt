//! What a text in memory begins with.

ghost use Rattle.std.specs.Prelude.{◌≡◌, false};
ghost use Rattle.gx_model.specs.Streams.Items.{first_of};
ghost use Rattle.gx_stream.specs.FirstItems.{shown_first, StandsBehind};

use crate::fault::StreamFault;
use crate::item::Item;
use crate::places::{Found, Scan, find_from, find_line};

/// What a text begins with that is the whole of a stream.
#[derive(Clone, Copy, Debug, PartialEq, Eq)]
pub enum First<'a> {
    /// An item, with the text behind it.
    Item(Item<'a>, &'a [u8]),
    /// A comment, with the text behind it.
    Comment(&'a [u8]),
    /// No item: the end, or a fault.
    End(Option<StreamFault>),
}

/// What a text begins with, as an `ItemReader` would read it from a source that ends behind the text.
///
/// Cost: the bytes of the item or the comment. Takes no memory.
/// Source: git-fast-import(1), "Comments" and "data".
#[tactic(auto, unfolding(gx_model::specs::Streams::Items::first_of, gx_model::specs::Streams::Items::first_line))]
pub fn first_item(text: &[u8]) -> First<'_>
    ensures first { shown_first result ≡ first_of text.now false }
    ensures behind { StandsBehind text.now result }
{
    let Some(line) = find_line(text, 0, 0, false) else {
        return First::End(None);
    };
    if text[line.start..line.end].starts_with(b"#") {
        return First::Comment(&text[line.next..]);
    }
    let mut scan = Scan::from_line(line.next);
    match find_from(text, line, &mut scan, false) {
        Found::Line(place) => First::Item(
            Item::Line(&text[place.start..place.end]),
            &text[place.next..],
        ),
        Found::Data(place) => First::Item(
            Item::Data(&text[place.start..place.end]),
            &text[place.next..],
        ),
        Found::End(last) => First::End(last),
    }
}

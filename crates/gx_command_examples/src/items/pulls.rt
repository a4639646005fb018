ghost use Rattle.std.specs.Prelude.{◌<◌};

use super::*;
use gx_devices::Allowed;
use std::alloc::Global;
use std::cell::Cell;
use std::test::Fail;

/// More pulls than a test makes.
const MANY: u64 = 10_000;

/// How many pulls are made for these items, which a text in pieces of this size gives so many times, how many with what is behind
/// them, and whether that is the end; none where it gives others.
fn pulls_of(
    alloc: Global,
    text: &[u8],
    piece: usize,
    items: &[Item<'_>],
    times: u16,
) -> Option<(u64, u64, bool)>
    requires { 0 < piece }
{
    let left = Cell::new(MANY);
    let source = Allowed {
        bytes: Bytes::new(text, piece, false),
        pulls: &left,
    };
    let mut reader = ItemReader::new(alloc, source);
    for _ in 0..times {
        for item in items {
            if reader.next() != Ok(Some(*item)) {
                return None;
            }
        }
    }
    let first = MANY.saturating_sub(left.get());
    let is_end = reader.next() == Ok(None);
    Some((first, MANY.saturating_sub(left.get()), is_end))
}

#[test]
fn more_is_pulled_only_for_the_next_item(rt: HostRuntime) -> Result<(), Fail> {
    let text = b"progress a\n".as_slice().repeat(rt.alloc(), 1000)?;
    let pulls = pulls_of(rt.alloc(), &text, 1, &[Item::Line(b"progress a")], 1);
    assert!(rt; matches!(pulls, Some((0..13, _, false))));
    Ok(())
}

#[test]
fn one_pull_serves_all_items_in_it(rt: HostRuntime) -> Result<(), Fail> {
    let text = b"blob\ndata 3\na\nb\n".as_slice().repeat(rt.alloc(), 1000)?;
    let items = [Item::Line(b"blob"), Item::Data(b"a\nb")];
    let pulls = pulls_of(rt.alloc(), &text, 0x1_0000, &items, 1000);
    assert!(rt; pulls == Some((1, 2, true)));
    Ok(())
}

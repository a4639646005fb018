//! Which paths are asked for. Source: gitglossary(7), "pathspec".

ghost use Rattle.std.specs.Prelude.{◌≡◌};
ghost use Rattle.std.specs.List.{list_any};
ghost use Rattle.gx_text.specs.Lent.{lent_texts};
ghost use Rattle.gx_differences.specs.Listed.{shown_differences};
ghost use Rattle.gx_diff.specs.Paths.{ask_for, asked_of, asks_for, ends_component};

use gx_differences::Difference;
use std::alloc::Allocator;

/// Leaves those of the paths that are asked for: that are one of these, or below one. One that ends with a slash is that of a
/// directory, and what is below it is asked for alone. Without any, each path is asked for.
///
/// Cost: the paths, each with each that is asked for. Takes no memory. Source: gitglossary(7), "pathspec".
pub fn retain_asked<A: Allocator + Copy>(found: &mut Vec<Difference<A>, A>, asked: &[&[u8]])
    ensures { shown_differences found.new.items
        ≡ asked_of (lent_texts asked.now) (shown_differences found.old.items) }
{
    found.retain(|difference| ask_for(asked, difference.path.joined()));
}

/// Whether a path is asked for by some of these, of which none asks for each.
fn ask_for(asked: &[&[u8]], path: &[u8]) -> bool
    ensures { result ≡ ask_for (lent_texts asked.now) path.now }
{
    let Some((first, others)) = asked.split_first() else {
        return true;
    };
    asks_for(first, path) || some_asks_for(others, path)
}

/// Whether one of these asks for a path.
fn some_asks_for(asked: &[&[u8]], path: &[u8]) -> bool
    ensures { result ≡ list_any (λ one. asks_for one path.now) (lent_texts asked.now) }
{
    for one in asked {
        if asks_for(one, path) {
            return true;
        }
    }
    false
}

/// Whether a path is asked for by this one.
fn asks_for(asked: &[u8], path: &[u8]) -> bool
    ensures { result ≡ asks_for asked.now path.now }
{
    match path.strip_prefix(asked) {
        None => false,
        Some(rest) => asked.ends_with(b"/") || ends_component(rest),
    }
}

/// Whether a component ends before this rest of a path.
fn ends_component(rest: &[u8]) -> bool
    ensures { result ≡ ends_component rest.now }
{
    match rest.first() {
        None => true,
        Some(byte) => *byte == b'/',
    }
}

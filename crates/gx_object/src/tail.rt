//! What stands in a commit's body behind its committer, and in a tag's behind its tagger. Source: gitformat-signature(5).

ghost use Rattle.std.specs.Prelude.{◌≡◌};
ghost use Rattle.std.specs.Option.{option_copied, option_map};
ghost use Rattle.gx_text.specs.Buffers.{GrowsBy};
ghost use Rattle.gx_wide.specs.WideTexts.{message_text, tail_of};

use gx_text::cut;
use std::alloc::{AllocError, Allocator};

/// The headers and the message, where there is one. Nothing where the last header has no end.
pub(crate) fn split_tail(bytes: &[u8]) -> Option<(&[u8], Option<&[u8]>)>
    ensures { option_map (λ p. (p.0.now, option_copied p.1)) result ≡ tail_of bytes.now }
{
    let mut rest = bytes;
    while let Some((line, after)) = cut(rest, b'\n') {
        if line.is_empty() {
            return Some((&bytes[..bytes.len() - rest.len()], Some(after)));
        }
        rest = after;
    }
    if rest.is_empty() {
        Some((bytes, None))
    } else {
        None
    }
}

/// Appends a message behind an empty line, where there is one.
pub(crate) fn append_message<A: Allocator + Copy>(
    body: &mut Vec<u8, A>,
    message: Option<&[u8]>,
) -> Result<(), AllocError>
    ensures { GrowsBy body.old body.new (message_text (option_copied message.entry)) result }
{
    if let Some(message) = message {
        body.push(b'\n')?;
        body.extend_from_slice(message)?;
    }
    Ok(())
}

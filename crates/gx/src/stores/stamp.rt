//! The text of a store file's stamp: DEVICE:INODE:SIZE:NANOSECONDS, numbers as stat(2) has them, the last one that of its last
//! modification.

use gx_place::{Expected, Identity, Stamp};
use std::alloc::{AllocError, Global};

/// The text that stands for a place where there is no file.
const NOTHING: &str = "new";

/// So many nanoseconds are a second.
const SECOND: i64 = 1_000_000_000;

/// What a text tells of the file that is to be replaced, if it tells that.
pub(crate) fn read_expected(text: &str) -> Option<Expected> {
    if text == NOTHING {
        return Some(Expected::Nothing);
    }
    let (device, rest) = text.split_once(':')?;
    let (inode, rest) = rest.split_once(':')?;
    let (size, time) = rest.split_once(':')?;
    let nanoseconds = time.parse::<i64>().ok()?;
    Some(Expected::Stamped(Stamp {
        identity: Identity {
            device: device.parse::<u64>().ok()?,
            inode: inode.parse::<u64>().ok()?,
        },
        size: size.parse::<u64>().ok()?,
        seconds: nanoseconds.div_euclid(SECOND),
        nanoseconds: nanoseconds.rem_euclid(SECOND),
    }))
}

/// The text of a stamp.
pub(crate) fn stamp_text(alloc: Global, stamp: &Stamp) -> Result<String, AllocError> {
    let Identity { device, inode } = stamp.identity;
    let size = stamp.size;
    let time = stamp
        .seconds
        .saturating_mul(SECOND)
        .saturating_add(stamp.nanoseconds);
    format!(in alloc; "{device}:{inode}:{size}:{time}")
}

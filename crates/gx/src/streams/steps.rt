//! How many commits stand on the ways that a stream's texts go. Source: gitrevisions(7), "REV~n" and "REV^n".

use gx_command::{Command, CommitIsh};
use std::alloc::Global;

/// A number behind `~` stands for so many steps: over a small repository no more commits are looked at.
const STEPS_OF_A_NUMBER: u64 = 1 << 12;

/// At most so many steps the texts of a command go from the commits that they name to those that they mean.
pub(super) fn steps_of(command: &Command<Global>) -> u64 {
    match command {
        Command::Commit(commit) => {
            let merges = commit.merges.iter();
            merges.fold(steps_to(commit.from.as_ref()), |sum, base| {
                sum.saturating_add(steps_to(Some(base)))
            })
        }
        Command::Reset(reset) => steps_to(reset.from.as_ref()),
        Command::Tag(tag) => steps_to(Some(&tag.from)),
        _ => 0,
    }
}

fn steps_to(base: Option<&CommitIsh<Global>>) -> u64 {
    match base {
        Some(CommitIsh::Text(text)) => text.iter().fold(0u64, |sum, byte| match *byte {
            b'~' => sum.saturating_add(STEPS_OF_A_NUMBER),
            b'^' => sum.saturating_add(1),
            _ => sum,
        }),
        _ => 0,
    }
}

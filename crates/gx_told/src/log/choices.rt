//! Which of the commits that a walk lists are still to be taken. Source: git-rev-list(1), "Commit Limiting".

ghost use Rattle.std.specs.Prelude.{◌≡◌, ◌-◌, false};
ghost use Rattle.std.specs.Option.{option_map};
ghost use Rattle.gx_ranges.specs.Listings.{is_done};
ghost use Rattle.gx_told.specs.Choosing.{Takes, choice_of, skips};

use gx_asks::{CommitFilter, LogOptions};
use gx_object::CommitView;
use gx_print::passes;

/// Which commits are taken: those that are kept, behind so many of them, so many at most.
#[derive(Clone, Copy)]
pub(super) struct Choice {
    only: CommitFilter,
    /// So many are still passed over.
    skip: Option<u64>,
    /// So many are still taken.
    left: Option<u64>,
}

impl Choice {
    /// The choice that options make.
    pub(super) fn of(options: LogOptions) -> Choice
        ensures { result ≡ choice_of options }
    {
        Choice {
            only: options.only,
            skip: options.skip,
            left: options.max_count,
        }
    }

    /// Whether no more commits are taken.
    pub(super) fn is_done(&self) -> bool
        ensures { result ≡ is_done self.now.left }
    {
        match self.left {
            Some(left) => left == 0,
            None => false,
        }
    }

    /// Whether the next commit, which has these parts, is taken. Takes no memory.
    pub(super) fn takes(&mut self, view: &CommitView<'_>) -> bool
        requires { is_done self.old.left ≡ false }
        ensures { Takes self.old self.new view.now result }
    {
        if !passes(self.only, view) {
            return false;
        }
        if skips(self.skip) {
            self.skip = one_less(self.skip);
            return false;
        }
        self.left = one_less(self.left);
        true
    }
}

/// Whether the next one is passed over.
fn skips(skip: Option<u64>) -> bool
    ensures { result ≡ skips skip }
{
    match skip {
        Some(left) => left > 0,
        None => false,
    }
}

/// How many are left behind one.
fn one_less(left: Option<u64>) -> Option<u64>
    ensures { result ≡ option_map (λ n. n - 1) left }
{
    match left {
        Some(left) => Some(left.saturating_sub(1)),
        None => None,
    }
}

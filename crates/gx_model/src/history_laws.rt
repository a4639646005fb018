//! Laws of histories: how values are added, and what a commit reaches.
ghost use Rattle.gx_model.specs.Laws.HistoryLaws.{AddsValue, ReachedIsLeast};

/// To add a value keeps the values those of a history.
pub fn adds_value()
    ensures { AddsValue }
{}

/// What a commit reaches is the least set with it and with the parents of its members.
pub fn reached_is_least()
    ensures { ReachedIsLeast }
{}

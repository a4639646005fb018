//! Laws of replays: what commands make of a history is a history.
ghost use Rattle.gx_model.specs.Laws.FeatureLaws.{ChangesAskOnce, CommandsAreAsked, ExportsAskOnce, ReplaysAreAsked};
ghost use Rattle.gx_model.specs.Histories.{IsHistory, no_history};
ghost use Rattle.gx_model.specs.Replay.ProperReplays.{RefusalsKeepHistories, ReplaysGiveHistories, StreamsAreProper, TextsGiveHistories};

/// The commands that a stream has are proper: their ref names, tag names, identities, headers, new paths and gitlink digits
/// have their forms. Source: git-fast-import(1), "Commands".
#[tactic(auto, using(crate::proofs::Streams::ReadCommands::all_proper))]
pub fn streams_are_proper()
    ensures { StreamsAreProper }
{}

/// The empty history is proper. Where a history is, so is what proper commands make of it, and what is kept of it where they
/// are refused, and so what any text makes. Whatever names objects have, and however revisions are read.
#[tactic(auto, using(crate::proofs::Replay::HistorySteps::nothing_is, crate::proofs::Replay::HistorySteps::replays_give, crate::proofs::Replay::HistorySteps::refusals_keep, crate::proofs::Replay::HistorySteps::texts_give))]
pub fn replays_give_histories()
    ensures empty { IsHistory no_history }
    ensures replays { ReplaysGiveHistories }
    ensures refused { RefusalsKeepHistories }
    ensures texts { TextsGiveHistories }
{}

/// Features that are asked for are those of a stream that begins with their lines: its commands behind these are the same, and
/// what they make of a history, too. Only the numbers of commands count no such lines. The text of an export asks for `done`
/// itself, and has the same commands with any features. So has the text of an export of changes that has `done`.
/// Source: git-fast-import(1), "--done" and "--force".
#[tactic(auto, using(crate::proofs::Streams::AskedFeatures::commands_are_asked, crate::proofs::Streams::AskedFeatures::replays_are_asked))]
pub fn features_are_asked()
    ensures commands { CommandsAreAsked }
    ensures replays { ReplaysAreAsked }
    ensures exports { ExportsAskOnce }
    ensures changes { ChangesAskOnce }
{}

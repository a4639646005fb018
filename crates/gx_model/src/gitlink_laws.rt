//! Laws of what no stream can say of a commit: gitlinks of forty zeros, and headers but that of an encoding.
ghost use Rattle.gx_model.specs.Histories.{no_history};
ghost use Rattle.gx_model.specs.Streams.Gitlinks.{CommandsBeforeNullAreReplayed, HoldsSayable, HoldsTellsHas, NullGitlinksAreRefused, NullGitlinksEndCommands, RefusalsKeepNone, ReplaysKeepNone, StreamsBringNone, TextsBringNone, TextsComeBack};

/// No command that a stream has gives a gitlink of forty zeros, or a header but that of an encoding.
#[tactic(auto, using(crate::proofs::Streams::ReadGitlinks::none_brought))]
pub fn streams_bring_none()
    ensures { StreamsBringNone }
{}

/// A stream can say each commit of the empty history, which has none. Where it can say each commit of a history, it can say
/// each after commands that it has, also where they are refused, and so after any text that is replayed; and so those that refs
/// reach.
#[tactic(auto, using(crate::proofs::Replay::GitlinkSteps::none_kept, crate::proofs::Replay::GitlinkSteps::refusals_keep_none, crate::proofs::Replay::GitlinkSteps::none_from_text, crate::proofs::Replay::GitlinkSteps::none_reached))]
pub fn replays_keep_none()
    ensures empty { HoldsSayable no_history }
    ensures kept { ReplaysKeepNone }
    ensures refused { RefusalsKeepNone }
    ensures texts { TextsBringNone }
    ensures reached { HoldsTellsHas }
{}

/// What any text gives from nothing comes back from its export, if the export's length is below 2^64: the same refs, exactly
/// what these reach, and the commits in their order.
pub fn texts_come_back()
    ensures { TextsComeBack }
{}

/// Where refs reach a gitlink of forty zeros, as they may in a store that was opened, and no header but those of encodings, the
/// import of the export's text into nothing is refused as Unsupported at the first command that brings one, if the text's
/// length is below 2^64. The commands
/// before that one make no other values than the exported history has, so that no two of these have one name where its values
/// have names of their own. Source: git-fast-import(1), "filemodify".
pub fn nulls_are_refused()
    ensures commands { NullGitlinksEndCommands }
    ensures refused { NullGitlinksAreRefused }
    ensures before { CommandsBeforeNullAreReplayed }
{}

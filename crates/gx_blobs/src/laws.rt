//! What the blobs of a stream are among its commands.

ghost use Rattle.gx_blobs.specs.Laws.{BlobsAreCommands};

/// The blobs that are listed are the first commands of the stream, in order, up to the first that is no blob, or to a fault.
#[tactic(auto, using(crate::proofs::CommandBlobs::blobs_are_commands))]
pub fn blobs_are_commands()
    ensures { BlobsAreCommands }
{}

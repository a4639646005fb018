//! One pull of a source.

ghost use Rattle.std.specs.Prelude.{◌<◌, ◌≤◌, ◌+◌, length};
ghost use Rattle.gx_stream.specs.Pulled.{KeepsComing, pulls_left};
ghost use Rattle.gx_stream.specs.declared.pulls.SourceState.TheVariants.{Open};

use gx_text::{Failed, Source};

/// The most bytes that are taken from a source.
pub const LIMIT: usize = 0x7fff_ffff_ffff_ffff;

/// What is known of a source: more may come, or it ended, or it failed.
#[derive(Clone, Copy, Drop)]
pub enum SourceState {
    /// More may come.
    Open,
    /// It ended.
    Ended,
    /// It failed, or gave more than is taken.
    Failed,
}

/// Pulls one piece, of which at most `room` bytes are taken. Answers what is known of the source then, and how many bytes of
/// the piece are taken.
///
/// Cost: that of one pull. Takes no memory.
pub fn pull_piece<R: Source>(
    source: &mut R,
    piece: &mut [u8],
    room: &mut usize,
) -> (SourceState, usize)
    requires { 0 < length piece.old }
    ensures within { result.1 ≤ length piece.new }
    ensures keeps { KeepsComing R.coming source.old source.new room.old room.new piece.new result }
    ensures room { result.1 + room.new ≤ room.old }
    ensures fewer { pulls_left result.0 room.new < pulls_left Open room.old }
{
    match source.pull(piece) {
        Err(Failed) => (SourceState::Failed, 0),
        Ok(0) => (SourceState::Ended, 0),
        Ok(count) => {
            let taken = count.min(*room);
            *room -= taken;
            if taken < count {
                (SourceState::Failed, taken)
            } else {
                (SourceState::Open, taken)
            }
        }
    }
}

//! The refs of a store, one a line. Source: git-show-ref(1).

ghost use Rattle.std.specs.Prelude.{Ok};
ghost use Rattle.gx_model.specs.Stores.StoreText.{stored_ref};
ghost use Rattle.gx_cli.specs.Sending.{PrintsText};
ghost use Rattle.gx_cli.specs.Answers.{Prints};
ghost use Rattle.gx_print.specs.Stored.{refs_text};

use crate::CliFault;
use crate::sending::put_text;
use gx_object::{Name, Namer};
use gx_repo::Repo;
use gx_text::Sink;
use std::alloc::Allocator;

/// Prints each ref: the digits of its object's name, a space, and its own name, in the byte order of names.
///
/// Cost: what is printed.
pub(crate) fn print_refs<N: Namer, A: Allocator + Copy, W: Sink>(
    repo: &Repo<N, A>,
    sink: &mut W,
) -> Result<(), CliFault>
    ensures { Prints (Ok (refs_text repo.now.1)) (W.taken sink.old) (W.taken sink.new) result }
{
    for (name, object) in repo.refs() {
        print_ref(sink, name, &object)?;
    }
    Ok(())
}

/// Prints a ref's line.
fn print_ref<W: Sink>(sink: &mut W, name: &[u8], object: &Name) -> Result<(), CliFault>
    ensures { PrintsText (stored_ref (name.now, object.now.bytes))
        (W.taken sink.old) (W.taken sink.new) result }
{
    put_text(sink, object.hex().as_slice())?;
    put_text(sink, b" ")?;
    put_text(sink, name)?;
    put_text(sink, b"\n")
}

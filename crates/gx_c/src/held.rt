//! A box behind a pointer that C holds.

ghost use Rattle.std.specs.Prelude.{◌≡◌, Option, None, Some, IsSome};
ghost use Rattle.gx_c.specs.Owned.{is_owned};
ghost use Rattle.gx_c.specs.declared.opened.Opened.{Opened as Value};

use crate::opened::Opened;
use std::alloc::Global;
use std::marker::Model;
use std::ptr::null_mut;

/// A box as its pointer.
pub(crate) struct Loose<T> {
    at: *mut T,
    ghost value: { T },
}

impl<T> Model for Loose<T> {
    ghost use Rattle.gx_c.specs.Owned.{is_owned};

    ghost also_owns = { λ loose. is_owned T.row loose.at loose.value };
}

/// A pointer for C, which is null, or is that of a box.
#[repr(C)]
#[derive(Drop)]
pub struct Held {
    at: *mut u8,
    ghost value: { Option Value },
}

impl Model for Held {
    ghost use Rattle.std.specs.Prelude.{Option};
    ghost use Rattle.gx_c.specs.declared.opened.Opened.{Opened as Value};
    ghost use Rattle.gx_c.specs.Owned.{is_held};
    ghost use Rattle.gx_c.specs.contracts.opened.Opened.{the_row};

    ghost also_owns = { λ held. is_held the_row held.at held.value };
}

/// No box.
pub fn none() -> Held
    ensures { result.value ≡ None }
{
    Held { at: null_mut() }
}

/// A box for C to hold.
pub fn keep(value: Box<Opened>) -> Held
    ensures { result.value ≡ Some value.value }
{
    hold(loosen(value))
}

/// The box that C held.
pub fn take(alloc: Global, held: Held) -> Box<Opened>
    requires { IsSome held.value }
    ensures { held.value ≡ Some result.value }
{
    tighten(alloc, release(held))
}

fn hold(loose: Loose<Opened>) -> Held
    ensures { result.value ≡ Some loose.value }
{
    let Loose { at } = loose;
    Held { at: at as *mut u8 }
}

fn release(held: Held) -> Loose<Opened>
    requires { IsSome held.value }
    ensures { held.value ≡ Some result.value }
{
    Loose {
        at: held.at as *mut Opened,
    }
}

fn loosen<T: Drop>(value: Box<T>) -> Loose<T>
    ensures { result.value ≡ value.value }
{
    Loose {
        at: Box::into_raw(value),
    }
}

fn tighten<T>(alloc: Global, loose: Loose<T>) -> Box<T>
    ensures { result.value ≡ loose.value }
{
    let Loose { at } = loose;
    unsafe { Box::from_raw(alloc, at) }
}

//! A repository in memory.

ghost use Rattle.std.specs.Prelude.{true, IfOk, Some};
ghost use Rattle.gx_objects.specs.Answers.{AreRefLines, FindsBegun, FindsRef, Holds, IsHeldThere, IsNamed, IsNamedAs, NeverUnread, OnlyDamaged, OnlyUntold, SpellsRefs, StandsIfTold, StandsThere, Tells};

use crate::ref_line::put_ref;
use crate::{LookFault, Object, Objects};
use gx_object::{Name, Namer};
use gx_repo::Repo;
use gx_store::Prefix;
use std::alloc::Allocator;

impl<N: Namer, B: Allocator + Copy> Objects for Repo<N, B> {
    ghost name_of = { λ repo. N.name_of repo.0 };

    ghost told = { λ repo. Some repo.1 };

    ghost stands = { λ _ number. number };

    ghost sure = { λ _. true };

    fn sound_if_told(&self) {
        self.sound();
    }

    /// Lends the body from where it stands: no room is needed, and there is no fault.
    fn object<'a, A: Allocator + Copy>(
        &'a self,
        name: &Name,
        _room: &'a mut Vec<u8, A>,
    ) -> Result<Option<Object<'a>>, LookFault>
        ensures held { Tells (Some self.now.1) (Holds name.now.bytes) result }
        ensures named { IfOk result (IsNamed (N.name_of self.now.0) name.now.bytes) }
        ensures fault { OnlyUntold (Some self.now.1) result }
        ensures sure { OnlyDamaged true result }
    {
        self.sound();
        match self.store().get(name) {
            Some((kind, body)) => Ok(Some(Object { kind, body })),
            None => Ok(None),
        }
    }

    fn place(&self, name: &Name) -> Result<Option<u64>, LookFault>
        ensures place { Tells (Some self.now.1)
            (StandsThere (λ number. number) name.now.bytes) result }
        ensures fault { OnlyUntold (Some self.now.1) result }
        ensures sure { OnlyDamaged true result }
    {
        match self.store().place(name) {
            Some(place) => Ok(Some(place as u64)),
            None => Ok(None),
        }
    }

    fn object_at<'a, A: Allocator + Copy>(
        &'a self,
        place: u64,
        name: &Name,
        _room: &'a mut Vec<u8, A>,
    ) -> Result<Object<'a>, LookFault>
        requires there { StandsIfTold (Some self.now.1) (λ number. number) name.now.bytes place }
        ensures held { Tells (Some self.now.1) (IsHeldThere name.now.bytes) result }
        ensures named { IfOk result (IsNamedAs (N.name_of self.now.0) name.now.bytes) }
        ensures fault { OnlyUntold (Some self.now.1) result }
        ensures sure { OnlyDamaged true result }
    {
        self.sound();
        match self.store().record(place as usize) {
            Some((_, kind, body)) => Ok(Object { kind, body }),
            None => unreachable!(),
        }
    }

    fn by_digits(&self, digits: &[u8]) -> Result<Prefix, LookFault>
        ensures name { Tells (Some self.now.1) (FindsBegun digits.now) result }
        ensures fault { OnlyUntold (Some self.now.1) result }
        ensures sure { OnlyDamaged true result }
    {
        Ok(self.store().by_prefix(digits))
    }

    /// Makes the lines in the room. Cost and memory: the lines.
    fn ref_lines<'a, A: Allocator + Copy>(
        &'a self,
        room: &'a mut Vec<u8, A>,
    ) -> Result<&'a [u8], LookFault>
        ensures lines { Tells (Some self.now.1) AreRefLines result }
        ensures spelled { IfOk result (λ lines. SpellsRefs lines.now) }
        ensures fault { OnlyUntold (Some self.now.1) result }
        ensures sure { NeverUnread true result }
    {
        self.sound();
        room.clear();
        for (name, object) in self.refs() {
            put_ref(room, name, &object)?;
        }
        Ok(room.as_slice())
    }

    fn object_of_ref(&self, name: &[u8]) -> Result<Option<Name>, LookFault>
        ensures object { Tells (Some self.now.1) (FindsRef name.now) result }
        ensures fault { OnlyUntold (Some self.now.1) result }
        ensures sure { OnlyDamaged true result }
    {
        match self.find_ref(name) {
            Ok(found) => Ok(found),
            Err(_) => unreachable!(),
        }
    }
}

//! What objects and refs are asked of.

ghost use Rattle.std.specs.Prelude.{ℕ, length, Bool, false, IfOk, IfSome, Option};
ghost use Rattle.gx_model.specs.declared.objects.Kind.{Kind};
ghost use Rattle.gx_model.specs.Histories.{Records};
ghost use Rattle.gx_model.specs.Objects.{IsNamer};
ghost use Rattle.gx_model.specs.Records.Sound.{IsSound};
ghost use Rattle.gx_model.specs.Texts.{Bytes};
ghost use Rattle.gx_objects.specs.Answers.{AreRefLines, FindsBegun, FindsRef, GoesUp, Holds, IsHeldThere, IsNamed, IsNamedAs, NeverUnread, OnlyDamaged, OnlyUntold, SpellsRefs, StandsIfTold, StandsThere, Tells};

use crate::LookFault;
use gx_object::{Kind, Name};
use gx_store::Prefix;
use std::alloc::Allocator;

/// An object: its kind, and its body where it stands.
#[derive(Clone, Copy, Debug, PartialEq, Eq, Drop)]
pub struct Object<'a> {
    pub kind: Kind,
    pub body: &'a [u8],
}

/// What holds objects and refs.
///
/// Whatever it holds, an object that it shows has the name that was asked for. Where it tells a repository, each answer is that
/// repository's, and none is `Damaged`.
pub trait Objects {
    /// The bytes of the name that a kind and a body get.
    ghost name_of: { Self → Kind → Bytes → Bytes };

    /// The repository whose objects and refs these are, where they are one's.
    ghost told: { Self → Option Records };

    /// Where the object of each number stands, in the order in which they were added.
    ghost stands: { Self → ℕ → ℕ };

    /// Whether an answer is had without a read and without memory, as of what stands in memory as it is shown.
    ghost sure: { Self → Bool } = { λ _. false };

    /// A repository that is told is sound, its objects stand one behind the other, and a name has 20 bytes. Takes no memory.
    fn sound_if_told(&self)
        ensures sound { IfSome (told self.now) (IsSound (name_of self.now)) }
        ensures order { IfSome (told self.now) (λ r. GoesUp (stands self.now) (length r.records)) }
        ensures namer { IsNamer (name_of self.now) };

    /// The object of a name, lent from where it stands or from the room.
    ///
    /// OutOfMemory: the room can't grow. ReadFailed: a read failed. Damaged: this is no repository's. What is in the room
    /// before and after stands for nothing.
    /// Source: gitglossary(7), "object name".
    fn object<'a, A: Allocator + Copy>(
        &'a self,
        name: &Name,
        room: &'a mut Vec<u8, A>,
    ) -> Result<Option<Object<'a>>, LookFault>
        ensures held { Tells (told self.now) (Holds name.now.bytes) result }
        ensures named { IfOk result (IsNamed (name_of self.now) name.now.bytes) }
        ensures fault { OnlyUntold (told self.now) result }
        ensures sure { OnlyDamaged (sure self.now) result };

    /// The place of the object of a name: places go up in the order in which objects were added, so that an object stands
    /// behind all that it names.
    ///
    /// ReadFailed and Damaged are those of `object`. Takes no memory. Source: gitglossary(7), "object name".
    fn place(&self, name: &Name) -> Result<Option<u64>, LookFault>
        ensures place { Tells (told self.now)
            (StandsThere (stands self.now) name.now.bytes) result }
        ensures fault { OnlyUntold (told self.now) result }
        ensures sure { OnlyDamaged (sure self.now) result };

    /// The object of a name whose place is known, as `object` has it. Where another object stands there, it is `Damaged`.
    fn object_at<'a, A: Allocator + Copy>(
        &'a self,
        place: u64,
        name: &Name,
        room: &'a mut Vec<u8, A>,
    ) -> Result<Object<'a>, LookFault>
        requires there { StandsIfTold (told self.now) (stands self.now) name.now.bytes place }
        ensures held { Tells (told self.now) (IsHeldThere name.now.bytes) result }
        ensures named { IfOk result (IsNamedAs (name_of self.now) name.now.bytes) }
        ensures fault { OnlyUntold (told self.now) result }
        ensures sure { OnlyDamaged (sure self.now) result };

    /// The name that begins with these digits, of either case, where they begin one alone.
    ///
    /// ReadFailed and Damaged are those of `object`. Takes no memory. Source: gitrevisions(7), "sha1".
    fn by_digits(&self, digits: &[u8]) -> Result<Prefix, LookFault>
        ensures name { Tells (told self.now) (FindsBegun digits.now) result }
        ensures fault { OnlyUntold (told self.now) result }
        ensures sure { OnlyDamaged (sure self.now) result };

    /// The object of the first ref among the name itself, and the name after `refs/`, `refs/tags/`, `refs/heads/` and
    /// `refs/remotes/`, and after `refs/remotes/` with `/HEAD` behind it.
    ///
    /// ReadFailed and Damaged are those of `object`. Takes no memory. Source: gitrevisions(7), "refname".
    fn object_of_ref(&self, name: &[u8]) -> Result<Option<Name>, LookFault>
        ensures object { Tells (told self.now) (FindsRef name.now) result }
        ensures fault { OnlyUntold (told self.now) result }
        ensures sure { OnlyDamaged (sure self.now) result };

    /// A line for each ref, in the byte order of their names: the digits of its object, a space, and its name. They are lent
    /// from where they stand or from the room. Whatever is told, they are so: names are ref names, and each stands once.
    ///
    /// OutOfMemory: the room can't grow. ReadFailed and Damaged are those of `object`.
    /// Source: git-show-ref(1), and git-check-ref-format(1).
    fn ref_lines<'a, A: Allocator + Copy>(
        &'a self,
        room: &'a mut Vec<u8, A>,
    ) -> Result<&'a [u8], LookFault>
        ensures lines { Tells (told self.now) AreRefLines result }
        ensures spelled { IfOk result (λ lines. SpellsRefs lines.now) }
        ensures fault { OnlyUntold (told self.now) result }
        ensures sure { NeverUnread (sure self.now) result };
}

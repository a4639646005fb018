//! Whose a file is, and who may do what with it. A next text lets nobody do what the file that it replaces didn't let him do.
//!
//! An access list can't be seen here, and where a file has one, the group bits of its mode are the list's mask. So bits that the group
//! has and others have not are handed on only where the group is known to be meant.

ghost use Rattle.std.specs.Prelude.{◌≡◌, ◌<◌, ◌%◌};
ghost use Rattle.gx_place.specs.Modes.{access_number, mode_number};
ghost use Rattle.gx_place.specs.Narrowing.{regrouped, reowned};
ghost use Rattle.gx_place.specs.Permissions.{IsHandedOn, both, granted, in_only, known};

/// What a class of users may do with a file. Source: path_resolution(7), "Permissions".
#[derive(Clone, Copy, Debug, PartialEq, Eq, Drop)]
pub struct Access {
    pub reads: bool,
    pub writes: bool,
    pub runs: bool,
}

/// What the owner, the group and all others may do. Source: inode(7), "The file type and mode".
#[derive(Clone, Copy, Debug, PartialEq, Eq, Drop)]
pub struct Mode {
    pub owner: Access,
    pub group: Access,
    pub others: Access,
}

/// Whose a file is, and who may do what with it.
#[derive(Clone, Copy, Debug, PartialEq, Eq, Drop)]
pub struct Rights {
    pub owner: u32,
    pub group: u32,
    pub mode: Mode,
}

impl Access {
    /// Both may do it.
    fn and(self, other: Access) -> Access
        ensures { result ≡ both self other }
    {
        Access {
            reads: self.reads && other.reads,
            writes: self.writes && other.writes,
            runs: self.runs && other.runs,
        }
    }

    /// Of the three low bits of a number.
    fn from_bits(bits: u32) -> Access
        ensures { access_number result ≡ bits % 8 }
    {
        Access {
            reads: bits / 4 % 2 == 1,
            writes: bits / 2 % 2 == 1,
            runs: bits % 2 == 1,
        }
    }

    /// The three bits, 4 for reading, 2 for writing and 1 for running.
    fn bits(self) -> u32
        ensures number { result ≡ access_number self }
        ensures bound { result < 8 }
    {
        u32::from(self.reads) * 4 + u32::from(self.writes) * 2 + u32::from(self.runs)
    }
}

impl Mode {
    /// The nine low bits of a mode.
    pub fn from_bits(bits: u32) -> Mode
        ensures { mode_number result ≡ bits % 512 }
    {
        Mode {
            owner: Access::from_bits(bits / 64),
            group: Access::from_bits(bits / 8),
            others: Access::from_bits(bits),
        }
    }

    /// The nine bits.
    pub fn bits(self) -> u32
        ensures { result ≡ mode_number self }
    {
        self.owner.bits() * 64 + self.group.bits() * 8 + self.others.bits()
    }
}

impl Rights {
    /// What a user may do who is in this group and in no other.
    pub fn of_user(&self, user: u32, group: u32) -> Access
        ensures { result ≡ granted self.now (record { number = user; is_in = in_only group }) }
    {
        if user == self.owner {
            self.mode.owner
        } else if self.group == group {
            self.mode.group
        } else {
            self.mode.others
        }
    }
}

impl Mode {
    /// As far as the group's bits are known to be the group's.
    fn known(self, is_group_meant: bool) -> Mode
        ensures { result ≡ known is_group_meant self }
    {
        if is_group_meant {
            self
        } else {
            Mode {
                owner: self.owner,
                group: self.group.and(self.others),
                others: self.others,
            }
        }
    }

    /// One of the old group may be one of the others now, and one of the others one of the new group.
    fn regrouped(self, is_same_group: bool) -> Mode
        ensures { result ≡ regrouped is_same_group self }
    {
        if is_same_group {
            self
        } else {
            Mode {
                owner: self.owner,
                group: self.group.and(self.others),
                others: self.group.and(self.others),
            }
        }
    }

    /// Who owned it is one of the group or of the others now.
    fn reowned(self, is_same_owner: bool) -> Mode
        ensures { result ≡ reowned is_same_owner self }
    {
        if is_same_owner {
            self
        } else {
            Mode {
                owner: self.owner,
                group: self.group.and(self.owner),
                others: self.others.and(self.owner),
            }
        }
    }
}

/// The mode of a file that takes another one's place, and has this owner and group: as much as lets nobody but a new owner do what he
/// couldn't before. Where the group isn't known to be meant, its bits count as far as others have them.
pub fn handed_on(replaced: Rights, owner: u32, group: u32, is_group_meant: bool) -> Mode
    ensures { IsHandedOn replaced is_group_meant owner group result }
{
    replaced
        .mode
        .known(is_group_meant)
        .regrouped(group == replaced.group)
        .reowned(owner == replaced.owner)
}

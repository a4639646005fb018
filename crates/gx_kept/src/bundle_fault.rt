//! Why a bundle isn't made.

ghost use Rattle.std.specs.Prelude.{◌≡◌};
ghost use Rattle.gx_kept.specs.Faults.{of_look};
ghost use Rattle.gx_kept.specs.declared.bundle_fault.BundleFault.TheVariants.{Stopped};

use crate::KeptFault;
use gx_objects::LookFault;

/// Why a bundle isn't made.
#[derive(Clone, Copy, Debug, PartialEq, Eq, Drop)]
pub enum BundleFault {
    /// There are 2^32 objects or more, which no pack can have. Nothing went out.
    Unsupported,
    /// What went out by then is a front of the bundle.
    Stopped(KeptFault),
}

impl From<KeptFault> for BundleFault {
    ghost from_gives = { λ from fault. fault ≡ Stopped from };

    fn from(fault: KeptFault) -> BundleFault {
        BundleFault::Stopped(fault)
    }
}

impl From<LookFault> for BundleFault {
    ghost from_gives = { λ from fault. fault ≡ Stopped (of_look from) };

    fn from(fault: LookFault) -> BundleFault {
        BundleFault::Stopped(KeptFault::from(fault))
    }
}

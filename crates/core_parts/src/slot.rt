//! Where a permit may lie: with no bytes, so that a table of slots takes no memory.
ghost use Rattle.std.specs.Prelude.{◌≡◌, List, [], ◌∷◌};
ghost use Rattle.std.specs.Coded.{coded_list};
ghost use Rattle.core_parts.specs.PermitIds.{PermitId, permit_id_coded, slot_owns};

use crate::permit::Permit;
use std::marker::Model;

/// A permit, or none.
pub struct PermitSlot {
    pub ghost holds: { List PermitId } by { coded_list permit_id_coded },
}

impl Model for PermitSlot {
    ghost also_owns = { λ s. slot_owns s.holds };
}

impl PermitSlot {
    #[inline]
    pub fn empty() -> PermitSlot
        ensures { result.holds ≡ [] }
    {
        PermitSlot {}
    }

    /// Returns the permit that lies here.
    #[inline]
    pub fn into_permit(self) -> Permit
        requires { (id : PermitId) × (self.holds ≡ id ∷ []) }
        ensures { self.holds ≡ result.id ∷ [] }
    {
        let PermitSlot {} = self;
        Permit {}
    }
}

impl Drop for PermitSlot {
    fn drop(self) {
        let Self {} = self;
    }
}

unsafe impl Send for PermitSlot {}

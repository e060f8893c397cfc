// A contact as it is followed from tick to tick. None exists with a number that is not finite, a point not below 2^150 or a distance not below 2^200 in size.
ghost use Rattle.std.specs.Prelude.{◌≡◌, true, ⊤};
ghost use Rattle.query.specs.Bounds.{bounded};

use crate::contact_data::ContactData;
use math::vector::Vector;
use shape::feature_id::PackedFeatureId;
use std::alloc::AllocError;

#[derive(Copy, Debug, Drop, PartialEq)]
pub struct TrackedContact<D> {
    pub local_p1: Vector,
    pub local_p2: Vector,
    pub dist: f64,
    pub fid1: PackedFeatureId,
    pub fid2: PackedFeatureId,
    pub data: D,
    ghost lawful: { bounded local_p1 local_p2 dist ≡ true },
}

// By hand, since no derive of `Clone` goes over a ghost field of a generic struct.
impl<D: Copy> Clone for TrackedContact<D> {
    ghost is_clone = { λ x y. y ≡ x };

    ghost is_infallible = { λ _. ⊤ };

    fn clone(&self) -> Result<Self, AllocError> {
        Ok(*self)
    }
}

#[tactic(auto, using(crate::proofs::ContactMagnitude::bounded_swap), unfolding(crate::specs::Contacts::fresh, crate::specs::Contacts::turned))]
impl<D: ContactData> TrackedContact<D> {
    ghost use Rattle.query.specs.Contacts.{seen, fresh, turned};

    // A contact with the initial datum, from its values one by one as in the Rust crate that is ported.
    fn new(
        local_p1: Vector,
        local_p2: Vector,
        fid1: PackedFeatureId,
        fid2: PackedFeatureId,
        dist: f64,
    ) -> Self
        requires { bounded local_p1 local_p2 dist ≡ true }
        ensures { seen result ≡ fresh D.ContactData.initial local_p1 local_p2 fid1 fid2 dist }
    {
        Self {
            local_p1,
            local_p2,
            dist,
            fid1,
            fid2,
            data: D::initial_datum(),
        }
    }

    // The same, with points and ids exchanged where `flipped`, a flag as in the Rust crate that is ported.
    pub(crate) fn flipped(
        local_p1: Vector,
        local_p2: Vector,
        fid1: PackedFeatureId,
        fid2: PackedFeatureId,
        dist: f64,
        flipped: bool,
    ) -> Self
        requires { bounded local_p1 local_p2 dist ≡ true }
        ensures { seen result ≡ turned flipped D.ContactData.initial local_p1 local_p2 fid1 fid2 dist }
    {
        if !flipped {
            Self::new(local_p1, local_p2, fid1, fid2, dist)
        } else {
            Self::new(local_p2, local_p1, fid2, fid1, dist)
        }
    }
}

ghost use Rattle.std.specs.Prelude.{◌≡◌, ◌≤◌, true, ⊤};
ghost use Rattle.faults.specs.Refusals.{is_none};
ghost use Rattle.files.specs.Formats.{pins_of};
ghost use Rattle.files.specs.Verdict.{fault};

use crate::kind::Kind;
use std::alloc::AllocError;
use std::marker::PhantomData;

// A map file that was accepted, in the caller's own bytes.
pub struct MapFile<'a, K: Kind> {
    pub(crate) bytes: &'a [u8],
    pub(crate) kind: PhantomData<K>,
    ghost accepted: { is_none (fault K.format bytes.now) ≡ true },
    ghost some: { 1 ≤ pins_of K.format bytes.now },
    ghost few: { pins_of K.format bytes.now ≤ 20 },
}

// By hand, since a generic struct with ghost fields is refused a derived `Clone`.
impl<'a, K: Kind> Copy for MapFile<'a, K> {}

impl<'a, K: Kind> Clone for MapFile<'a, K> {
    ghost is_clone = { λ s r. r ≡ s };

    ghost is_infallible = { λ _. ⊤ };

    fn clone(&self) -> Result<Self, AllocError> {
        Ok(*self)
    }
}

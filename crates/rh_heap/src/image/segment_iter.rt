//! What an iterator over an image holds.
ghost use Rattle.rh_defs.proofs.HeapRest.{IsRest-prop};
ghost use Rattle.rh_defs.specs.HeapParts.{IsRest};

/// Goes over the segments of an image in order of place.
#[derive(Drop)]
pub struct SegmentIter<'a> {
    pub(crate) image: &'a [u8],
    pub(crate) base: usize,
    pub(crate) from: usize,
    pub(crate) place: usize,
    ghost standing: { IsRest image.now base from place } by { IsRest-prop image.now base from place },
}

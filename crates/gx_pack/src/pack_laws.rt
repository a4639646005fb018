//! Laws of packs and bundles: what is read of one by the written grammar of its format.

ghost use Rattle.gx_pack.specs.PackLaws.{BundlesAreRead, PacksAreRead};

/// A pack, read as Git, zlib and deflate write down their formats, has just the objects that were written, in their order: each of
/// its kind and with its bytes. So has an entry, and stored data, whatever follows it.
///
/// A pack has less than 2^32 objects. Source: gitformat-pack(5), RFC 1950, and RFC 1951, section 3.2.4.
#[tactic(auto, using(crate::proofs::PacksRead::packs_are_read))]
pub fn packs_are_read()
    ensures { PacksAreRead }
{}

/// A bundle, read as Git writes down its format, tells what its reader has to have, the refs and the objects that were written, each
/// in its order. Its pack has less than 2^32 objects. Source: gitformat-bundle(5).
#[tactic(auto, using(crate::proofs::BundlesRead::bundles_are_read))]
pub fn bundles_are_read()
    ensures { BundlesAreRead }
{}

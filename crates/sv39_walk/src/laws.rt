//! The computed answer of a translation and the sequence of entries that the manual reads. Nothing here runs: each
//! function has a law as its contract.

ghost use Rattle.sv39_walk.specs.Laws.{NewCachesFit, OneTranslation, StoresKeepFits, TranslationsGoByPage, TranslationsKeepLowBits, WalkedIsTranslation};

/// The computed answer is that of a sequence of entries, each in the table that the one before names.
#[tactic(auto, using(crate::proofs::Sequence::walked_is_translation))]
pub fn walked_is_translation()
    ensures { WalkedIsTranslation }
{}

/// There is one such answer alone.
#[tactic(auto, using(crate::proofs::Sequence::one_translation))]
pub fn one_translation()
    ensures { OneTranslation }
{}

/// A cache that keeps nothing fits every memory.
#[tactic(auto, using(crate::proofs::Fitting::empty_fits))]
pub fn new_caches_fit()
    ensures { NewCachesFit }
{}

/// A store keeps the fit of every cache.
#[tactic(auto, using(crate::proofs::Fitting::stored_fits))]
pub fn stores_keep_fits()
    ensures { StoresKeepFits }
{}

/// A place that an address is translated to has the low 12 bits of the address.
#[tactic(auto, using(crate::proofs::LowBits::low_walked))]
pub fn translations_keep_low_bits()
    ensures { TranslationsKeepLowBits }
{}

/// An address is translated as the first address of its page, and then so many bytes further on.
#[tactic(auto, using(crate::proofs::ByPage::by_page))]
pub fn translations_go_by_page()
    ensures { TranslationsGoByPage }
{}

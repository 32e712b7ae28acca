//! Laws of the definitions, each the contract of a function that does nothing.

ghost use Rattle.icb_gcm.specs.Laws.{OpensExactlySealed, OpensNoneExactly, OpensOnePairAlone, SealedOpens};

/// Opening is the inverse of sealing (NIST SP 800-38D, 7.2).
pub fn opening_laws()
    ensures opens_exactly_what_was_sealed { OpensExactlySealed }
    ensures opens_nothing_else { OpensNoneExactly }
    ensures what_was_sealed_opens { SealedOpens }
    ensures one_text_is_opened_from_one_pair { OpensOnePairAlone }
{}

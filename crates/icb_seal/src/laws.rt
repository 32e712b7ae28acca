//! Laws of the definitions, each the contract of a function that does nothing.

ghost use Rattle.icb_seal.specs.Laws.{AdditionalDataDiffer, NoncesDiffer, OpensOnlySealed, SealedBlockHasForm, SealedBlockOpens, SealedKeyOpens, TextIsSealed};

/// Opening a cipher block is the inverse of sealing it (NIST SP 800-38D, 7.2).
pub fn blocks_open()
    ensures opens { SealedBlockOpens }
    ensures form { SealedBlockHasForm }
    ensures every_text { TextIsSealed }
    ensures only_sealed { OpensOnlySealed }
{}

/// No nonce comes twice in one file.
pub fn nonces_differ()
    ensures { NoncesDiffer }
{}

/// No block has the additional data of a block of another number or of a file with another prefix.
pub fn additional_data_differ()
    ensures { AdditionalDataDiffer }
{}

/// Opening a sealed key is the inverse of sealing it.
pub fn sealed_keys_open()
    ensures { SealedKeyOpens }
{}

//! The laws of streams: functions that do nothing, and whose contracts are the laws.

ghost use Rattle.icb_stream.specs.Laws.{BelongsWhenGrown, ContentHasLength, CutExactly, FrontEndsAtRefused, FrontsJoin, KnownIsPlaintext, ReadContentHasLength, RefusedFrontStays, SealedIsOpen, WholeFrontIsPlaintext};

/// A stream that belonged to what a store held belongs to what it holds since it only grew.
pub fn belongs_when_grown()
    ensures { BelongsWhenGrown }
{}

/// A file is cut into blocks exactly where so many of them lie in it one after another.
pub fn cut_exactly()
    ensures { CutExactly }
{}

/// What is known of an open stream, and what a reader of it may know, speaks of each place of its
/// plaintext.
pub fn content_has_length()
    ensures content { ContentHasLength }
    ensures read { ReadContentHasLength }
{}

/// A reader's content without gaps is the plaintext.
pub fn known_is_plaintext()
    ensures { KnownIsPlaintext }
{}

/// What fronts of ranges are: of the whole plaintext, of two ranges in a row, and where a block is
/// refused.
pub fn fronts()
    ensures whole { WholeFrontIsPlaintext }
    ensures join { FrontsJoin }
    ensures refused_stays { RefusedFrontStays }
    ensures refused_ends { FrontEndsAtRefused }
{}

/// The written form of a stream is an open stream whose plaintext is the one that was sealed.
pub fn sealed_stream_is_open()
    ensures { SealedIsOpen }
{}

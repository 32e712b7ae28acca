//! Laws of the shared words: functions that do nothing, and whose contracts are the laws, stated in
//! `specs/Laws.antt`. Crates above cite the lemmas in `proofs/LawLemmas.antt` and `proofs/CallLemmas.antt`.
ghost use Rattle.icb_base.specs.Laws.{BlamesAtRest, BlamesTwice, CountedAtRest, CountedTwice, DrawsAtRest, DrawsFailed, DrawsTwice, FilledHasLength, FilledHasPart, FillsLess, FrontsJoin, GrowsAtRest, GrowsTwice, KnowsItself, KnowsThrough, MayRaiseOnly, PutGrows, PutsAtRest, RaisedOnly, ReadsAtRest, ReadsTwice, ReadsWithin, RoseSince, TakesAtRest, TakesFailed, TakesTwice, WritesAtRest, WritesFailed, WritesTwice};

use crate::storage::Store;
use crate::transfer::{Draws, Sink, Source};

/// A count that rose late in a call rose in the call, and a fault of the later of two calls is the fault
/// of both.
pub fn faults_are_blamed()
    ensures since { RoseSince }
    ensures at_rest { BlamesAtRest }
    ensures twice { BlamesTwice }
{}

/// A store that only grew twice only grew, and so did one that stayed as it was, and one with a put
/// where nothing was held.
pub fn stores_grow()
    ensures at_rest { GrowsAtRest }
    ensures twice { GrowsTwice }
    ensures put { PutGrows }
{}

/// A counted call counts on its own path only, and two such calls count on it only.
pub fn calls_are_counted()
    ensures at_rest { CountedAtRest }
    ensures once { RaisedOnly }
    ensures failed { MayRaiseOnly }
    ensures twice { CountedTwice }
{}

/// A text and then a front of a second one are a front of both.
pub fn fronts_join()
    ensures { FrontsJoin }
{}

/// A whole file that fills what is known has as many bytes, and each part that was read; and it fills
/// whatever knows no more.
pub fn known_is_filled()
    ensures size { FilledHasLength }
    ensures part { FilledHasPart }
    ensures less { FillsLess }
{}

/// To know no more is a preorder.
pub fn knowledge_is_ordered()
    ensures reflexive { KnowsItself }
    ensures transitive { KnowsThrough }
{}

/// No call reads a path or puts nothing; two runs of calls that read a path are one such run, and a run is
/// one under wider bounds.
pub fn store_calls_join<S: Store>()
    ensures at_rest { ReadsAtRest S.Store }
    ensures twice { ReadsTwice S.Store }
    ensures within { ReadsWithin S.Store }
    ensures no_put { PutsAtRest S.Store }
{}

/// No call writes the empty text, and two texts written one after the other are one.
pub fn written_texts_join<O: Sink>()
    ensures at_rest { WritesAtRest O.Sink }
    ensures twice { WritesTwice O.Sink }
    ensures failed { WritesFailed O.Sink }
{}

/// No call takes the empty text, and two texts taken one after the other are one.
pub fn taken_texts_join<I: Source>()
    ensures at_rest { TakesAtRest I.Source }
    ensures twice { TakesTwice I.Source }
    ensures failed { TakesFailed I.Source }
{}

/// No call draws the empty text, and two texts drawn one after the other are one.
pub fn drawn_texts_join<D: Draws>()
    ensures at_rest { DrawsAtRest D.Draws }
    ensures twice { DrawsTwice D.Draws }
    ensures failed { DrawsFailed D.Draws }
{}

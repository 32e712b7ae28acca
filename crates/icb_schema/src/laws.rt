//! Laws of the definitions, each the contract of a function that does nothing.
ghost use Rattle.icb_schema.specs.Laws.{ArraysTakeBytes, LevelsAreEnough, ReferencesAreTheirTypes, TypesAreKnownByName};

/// A JSON value is read alike with any number of levels that is more than it nests.
pub fn levels_are_enough()
    ensures { LevelsAreEnough }
{}

/// No array of a schema has items that take no bytes.
pub fn arrays_take_bytes()
    ensures { ArraysTakeBytes }
{}

/// In a schema that is read a reference is the type that it names: types of one name have one form, and
/// a type is known by its own name.
pub fn references_are_their_types()
    ensures form { ReferencesAreTheirTypes }
    ensures name { TypesAreKnownByName }
{}

//! What holds of the canonical text. The functions here do nothing.
ghost use Rattle.cel_print.specs.Laws.{CanonicalIsBest, CanonicalIsRead};

/// The canonical symbols of a statement are read as it, and no others that are read as it are fewer or
/// nested less.
pub fn canonical_is_best()
    ensures { CanonicalIsBest }
{}

/// The canonical text of what a text reads as is read as the same statements, each on a line of its
/// own.
pub fn canonical_is_read()
    ensures { CanonicalIsRead }
{}

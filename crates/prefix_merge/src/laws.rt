//! Laws over merged networks.
ghost use Rattle.prefix_merge.specs.Laws.{LinesAreItsOwn, LinesComeInTurn, PrefixesAreListed, StatesAreCounted, StatesAreListed, StatesArePrefixes, TakenBackIsBefore};

/// The states of a merged network are exactly the prefixes that its ends use.
pub fn states_are_prefixes()
    ensures { StatesArePrefixes }
{}

/// A merged network has as many states as its lines have distinct prefixes, roots included.
pub fn states_are_counted()
    ensures { StatesAreCounted }
{}

/// The distinct prefixes of a merged network's lines are as many as its states, and the roots among them
/// as many as its root states.
pub fn states_are_listed()
    ensures { StatesAreListed }
{}

/// The prefixes of lines are listed, each once.
pub fn prefixes_are_listed()
    ensures { PrefixesAreListed }
{}

/// A merged network has the lines of its ends, so a layout that fits them fits it.
pub fn lines_are_its_own()
    ensures { LinesAreItsOwn }
{}

/// Lines that are inserted one after another make a network that has exactly these lines.
pub fn lines_come_in_turn()
    ensures { LinesComeInTurn }
{}

/// A line that is inserted and removed again leaves the network as it was, its list of places included.
pub fn taken_back_is_before()
    ensures { TakenBackIsBefore }
{}

//! Laws over fixed parts. The functions do nothing: their contracts say what follows from the definitions.
ghost use Rattle.static_index.specs.Laws.{HoldingIsMatched, MatchedIsLookedUp};

/// A condition that holds for an event is among those that `matching` gives, so the others needn't be tested.
pub fn holding_conditions_are_matched()
    ensures { HoldingIsMatched }
{}

/// What `matching` gives, `lookup` gives too.
pub fn matched_conditions_are_looked_up()
    ensures { MatchedIsLookedUp }
{}

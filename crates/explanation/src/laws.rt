//! The law of numbered events.
ghost use Rattle.explanation.specs.HeardLines.{NumberedEventsAreHeard};

/// Where no line is refused, the events with the numbers of their lines are those that are heard.
pub fn numbered_events_are_heard()
    ensures { NumberedEventsAreHeard }
{}

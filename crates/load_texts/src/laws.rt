//! A law of the texts. The function does nothing: its contract says what follows from the definitions.
ghost use Rattle.load_texts.specs.Laws.{EventTextsAreShort};

/// The text of at most 200,000 events has at most 64 bytes for each of them.
pub fn event_texts_are_short()
    ensures { EventTextsAreShort }
{}

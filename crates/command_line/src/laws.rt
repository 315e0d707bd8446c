//! A law of words. The function does nothing: its contract says what follows from the definitions.
ghost use Rattle.command_line.specs.Plain.{FlaggedValuesAreJob, NoValueIsNoJob, OneValueIsJob, TwoFlagsAreNoJob, TwoValuesAreJob};

/// Of one to three words that begin with no hyphen the first is the action and the others are its values. The
/// flag may stand anywhere among an action and its two values, once.
pub fn plain_words_are_jobs()
    ensures none { NoValueIsNoJob }
    ensures one { OneValueIsJob }
    ensures two { TwoValuesAreJob }
    ensures flagged { FlaggedValuesAreJob }
    ensures twice { TwoFlagsAreNoJob }
{}

//! The epochs of the event text.
ghost use Rattle.std.specs.Prelude.{◌≡◌, ◌<◌};
ghost use Rattle.load_texts.specs.Epochs.{TimesAreCounted, epoch_count};

/// The number of epochs of so many events, of which two have one detection time.
pub fn epoch_count(events: u64) -> u64
    requires { 0 < events }
    ensures value { result ≡ epoch_count events }
    ensures times_are_counted { TimesAreCounted events result }
{
    1 + (events - 1) / 2
}

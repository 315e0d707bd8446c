//! Laws over what expressions denote.
ghost use Rattle.algebra.specs.Laws.{SoundStreamsGiveSoundTuples, TypedProgramsSuit, TypedSuits};

/// What is typed may be evaluated, and gives tuples of its kinds.
pub fn typed_suits()
    ensures { TypedSuits }
{}

/// Evaluation makes no tuple that starts after its detection.
pub fn sound_streams_give_sound_tuples()
    ensures { SoundStreamsGiveSoundTuples }
{}

/// The queries of a typed program may be evaluated in turn, each over the streams before its own.
pub fn typed_programs_suit()
    ensures { TypedProgramsSuit }
{}

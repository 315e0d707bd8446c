//! Numbers for hidden streams.
ghost use Rattle.std.specs.Prelude.{◌≡◌, ◌+◌, ◌<◌, ◌^◌};

use event_types::StreamId;
use std::marker::Model;

/// Hands out numbers for hidden streams, one after another, up to the last one of usize.
#[derive(Drop)]
pub struct Namer {
    next: Option<StreamId>,
}

impl Model for Namer {
    ghost use Rattle.std.specs.Prelude.{ℕ};
    ghost use Rattle.splitter.specs.Numbers.{next_number};

    ghost Value = { ℕ };

    ghost view = { λ n. next_number n.next };
}

impl Namer {
    /// Takes no memory.
    pub fn new(next: StreamId) -> Namer
        ensures { result ≡ next }
    {
        Namer { next: Some(next) }
    }

    /// The number that is handed out next.
    pub fn next(&self) -> StreamId
        requires { self.now < 2 ^ 64 }
        ensures { result ≡ self.now }
    {
        match self.next {
            Some(number) => number,
            None => unreachable!(),
        }
    }

    // Hands out a number.
    pub(crate) fn hand_out(&mut self) -> StreamId
        requires { self.old < 2 ^ 64 }
        ensures value { result ≡ self.old }
        ensures next { self.new ≡ self.old + 1 }
    {
        let number = self.next();
        self.next = number.checked_add(1);
        number
    }

    // One that hands out the same numbers.
    pub(crate) fn same(&self) -> Namer
        ensures { result ≡ self.now }
    {
        Namer { next: self.next }
    }
}

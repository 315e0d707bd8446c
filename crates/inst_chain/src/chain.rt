//! A chain of beads.
ghost use Rattle.std.specs.Prelude.{◌≡◌, ◌++◌, ◌∷◌, [], IfNone, None, option_to_list};

use crate::bead::Bead;
use crate::run::{Run, join, one, pop};
use std::marker::Model;

/// A chain of beads. Each bead is a box that leads on to the next one and back to the one before it, and
/// is freed once.
pub struct Chain<T> {
    pub(crate) run: Option<Run<T>>,
}

impl<T> Model for Chain<T> {
    ghost use Rattle.std.specs.Prelude.{List};
    ghost use Rattle.inst_chain.specs.Items.{items};

    ghost Value = { List T };

    ghost view = { λ chain. items chain.run };
}

impl<T: Drop> Chain<T> {
    /// Takes no memory.
    pub fn new() -> Chain<T>
        ensures { result ≡ [] }
    {
        Chain { run: None }
    }

    /// Puts the bead at the back, past all that are there. Takes no memory.
    pub fn link(&mut self, bead: Bead<T>)
        ensures { self.new ≡ self.old ++ bead ∷ [] }
    {
        let Bead { node } = bead;
        self.put(one(node));
    }

    /// Moves all beads of the other chain to the back. It touches one bead of each. Takes no memory.
    pub fn append(&mut self, other: &mut Chain<T>)
        ensures items { self.new ≡ self.old ++ other.old }
        ensures empty { other.new ≡ [] }
    {
        if let Some(more) = std::mem::replace(&mut other.run, None) {
            self.put(more);
        }
    }

    // Puts the beads at the back.
    fn put(&mut self, more: Run<T>)
        ensures { self.new ≡ self.old ++ more }
    {
        let whole = match std::mem::replace(&mut self.run, None) {
            None => more,
            Some(run) => join(run, more),
        };
        restore(&mut self.run, Some(whole));
    }

    /// Takes the first bead out. None exactly where there is none. Takes no memory.
    pub fn pop(&mut self) -> Option<Bead<T>>
        ensures items { self.old ≡ option_to_list result ++ self.new }
        ensures none { IfNone result (self.new ≡ []) }
    {
        match std::mem::replace(&mut self.run, None) {
            None => None,
            Some(run) => {
                let (node, rest) = pop(run);
                restore(&mut self.run, rest);
                Some(Bead { node })
            }
        }
    }
}

impl<T: Drop> Drop for Chain<T> {
    fn drop(mut self) {
        loop {
            let Chain { run } = self;
            match run {
                None => return,
                Some(run) => {
                    let (node, rest) = pop(run);
                    drop(node);
                    self = Chain { run: rest };
                }
            }
        }
    }
}

// Puts a run where none is: a run is let go nowhere.
fn restore<T>(place: &mut Option<Run<T>>, run: Option<Run<T>>)
    requires { place.old ≡ None }
    ensures { place.new ≡ run }
{
    match std::mem::replace(place, run) {
        None => {}
        Some(_run) => unreachable!(),
    }
}

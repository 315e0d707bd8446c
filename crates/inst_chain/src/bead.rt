//! A bead, which holds one value.
ghost use Rattle.std.specs.Prelude.{◌≡◌, MatchResult};

use crate::node::Node;
use crate::run::Link;
use std::alloc::Global;
use std::marker::Model;
use std::ptr::null_mut;

/// The memory for one value of a chain, with the value in it.
#[derive(Drop)]
pub struct Bead<T> {
    pub(crate) node: Box<Node<Link, T>>,
}

impl<T> Model for Bead<T> {
    ghost use Rattle.inst_chain.specs.Linked.{IsAlone};

    ghost Value = { T };

    ghost view = { λ b. b.node.value.value };

    ghost invariant = { λ b. IsAlone b.node.value };
}

impl<T: Drop> Bead<T> {
    /// Want of memory hands the value back.
    pub fn make(alloc: Global, value: T) -> Result<Bead<T>, T>
        ensures { MatchResult result (λ bead. bead ≡ value) (λ back. back ≡ value) }
    {
        let node = Node {
            next: null_mut(),
            prev: null_mut(),
            value,
        };
        match Box::new(alloc, node) {
            Ok(node) => Ok(Bead { node }),
            Err(refused) => Err(refused.value.value),
        }
    }

    /// Puts a value in place of the bead's own, and gives that back. Takes no memory.
    pub fn replace(&mut self, value: T) -> T
        ensures new { self.new ≡ value }
        ensures old { result ≡ self.old }
    {
        std::mem::replace(&mut self.node.value, value)
    }

    /// Frees the bead. Takes no memory.
    pub fn into_value(self) -> T
        ensures { result ≡ self }
    {
        let Bead { node } = self;
        let Node {
            value,
            next: _,
            prev: _,
        } = Box::into_inner(node);
        value
    }
}

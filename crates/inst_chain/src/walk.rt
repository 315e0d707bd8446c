//! Walking along a chain, to take beads out of it.
ghost use Rattle.std.specs.Prelude.{◌≡◌, ◌++◌, ◌∷◌, [], List, drop, option_copied, option_to_list, take};
ghost use Rattle.inst_chain.specs.Heads.{head};

use crate::bead::Bead;
use crate::chain::Chain;
use std::marker::Model;

/// A walk along a chain.
pub type Walk<'a, T> = WalkOn<'a, Chain<T>>;

/// A walk: the values from where it stands, and those that it passed, in the order of the chain. Where
/// it ends, the chain has those that it passed and then the others.
pub struct WalkOn<'a, C: Walked> {
    chain: &'a mut C,
    passed: C::Passed,
}

/// What can be walked along.
pub trait Walked: Drop {
    type Item;

    type Passed: Drop;

    ghost items: { Self → List Self.Item };

    ghost passed_items: { Self.Passed → List Self.Item };

    /// Puts what a walk has passed back in front.
    fn put_back(&mut self, passed: Self::Passed)
        ensures { items self.new ≡ passed_items passed ++ items self.old };
}

/// The beads that a walk has passed. They are a chain of their own until the walk ends.
#[derive(Drop)]
pub struct Passed<T> {
    chain: Chain<T>,
}

impl<T> Model for Passed<T> {
    ghost use Rattle.std.specs.Prelude.{List};

    ghost Value = { List T };

    ghost view = { λ passed. passed.chain };
}

impl<T: Drop> Walked for Chain<T> {
    type Item = T;

    type Passed = Passed<T>;

    ghost items = { λ chain. chain };

    ghost passed_items = { λ passed. passed };

    fn put_back(&mut self, passed: Passed<T>) {
        let Passed { mut chain } = passed;
        chain.append(self);
        std::mem::swap(self, &mut chain);
    }
}

impl<T: Drop> Chain<T> {
    /// A walk that stands at the first value. Takes no memory.
    pub fn walk(&mut self) -> Walk<'_, T>
        ensures same_reference { result.chain.ghost_name ≡ self.entry.ghost_name }
        ensures here { result.chain.now ≡ self.old }
        ensures passed { result.passed ≡ [] }
    {
        let chain = Chain::new();
        WalkOn {
            chain: self,
            passed: Passed { chain },
        }
    }
}

impl<T: Drop> WalkOn<'_, Chain<T>> {
    /// The value where the walk stands, and none exactly past the last. Takes no memory.
    pub fn get(&self) -> Option<&T>
        ensures { option_copied result ≡ head self.now.chain.now }
    {
        let chain: &Chain<T> = &*self.chain;
        chain.look().next()
    }

    /// Goes on to the next value, and stays where it is past the last. Takes no memory.
    pub fn step(&mut self)
        ensures same_reference { self.new.chain.ghost_name ≡ self.old.chain.ghost_name }
        ensures here { self.new.chain.now ≡ drop 1 self.old.chain.now }
        ensures passed { self.new.passed ≡ self.old.passed ++ take 1 self.old.chain.now }
    {
        if let Some(bead) = self.chain.pop() {
            self.passed.chain.link(bead);
        }
    }

    /// Takes the bead where the walk stands out of the chain, so that the walk stands at the next one.
    /// None exactly past the last. Takes no memory.
    pub fn unlink(&mut self) -> Option<Bead<T>>
        ensures taken { result ≡ head self.old.chain.now }
        ensures same_reference { self.new.chain.ghost_name ≡ self.old.chain.ghost_name }
        ensures here { self.old.chain.now ≡ option_to_list result ++ self.new.chain.now }
        ensures passed { self.new.passed ≡ self.old.passed }
    {
        self.chain.pop()
    }
}

impl<C: Walked> Drop for WalkOn<'_, C> {
    fn drop(self)
        ensures { C.items self.exit.0.now ≡ C.passed_items self.entry.passed ++ C.items self.entry.chain.now }
    {
        let WalkOn { chain, passed } = self;
        chain.put_back(passed);
    }
}

//! An order of work.
ghost use Rattle.std.specs.Prelude.{◌≡◌, ◌<◌, ◌-◌, ◌==◌, ◌∷◌, ◌++◌, [], Some, IfOk, OnErr, OnOk, length, map, slice_get, take};
ghost use Rattle.std.specs.List.{position_or_len, remove};
ghost use Rattle.work_order.specs.Numbers.{AreNumbers, moved_down};
ghost use Rattle.work_order.specs.Turns.{IsAdded};

use crate::placing::places_in;
use crate::turns::{Turn, find, turns_of};
use event_types::{Memory, Numbers};
use long_lists::LongList;
use std::alloc::Global;
use std::marker::Model;

/// The numbers of queries in the order in which they are worked on. A query's number is its place among those that are there,
/// in the order in which they came, and its place in the order of work another one. Both are counted from 0.
///
/// Each query has a turn in each of both orders, which it keeps, and which no other is given later. So a query leaves in
/// steps as the logarithm of how many there are, and in as many a number or a place is found, which no clause says.
pub struct WorkOrder {
    by_place: LongList<Turn>,
    by_number: LongList<Turn>,
    // above all turns of both orders
    next: usize,
}

// A caller that lets an order go makes one call, where a derive would take each part apart at each place.
impl Drop for WorkOrder {
    fn drop(self) {
        let WorkOrder {
            by_place: _by_place,
            by_number: _by_number,
            next: _,
        } = self;
    }
}

impl Model for WorkOrder {
    ghost use Rattle.std.specs.Prelude.{ℕ, List};

    ghost Value = { List ℕ };

    ghost use Rattle.work_order.specs.Turns.{AreTurns, numbers_by};

    ghost view = { λ order. numbers_by order.by_place order.by_number };

    ghost invariant = { λ order. AreTurns order.by_place order.by_number order.next };
}

impl WorkOrder {
    /// An order of work of these numbers, in a time that grows as how many they are.
    pub fn of(alloc: Global, numbers: &Numbers) -> Result<WorkOrder, Memory>
        requires { AreNumbers numbers.now }
        ensures { IfOk result (λ order. order ≡ numbers.now) }
    {
        let places = places_in(alloc, numbers)?;
        let by_place = turns_of(alloc, numbers)?;
        let by_number = turns_of(alloc, &places)?;
        Ok(WorkOrder {
            by_place,
            by_number,
            next: numbers.len(),
        })
    }

    /// How many queries there are.
    pub fn len(&self) -> usize
        ensures value { result ≡ length self.now }
        ensures numbers { AreNumbers self.now }
    {
        self.by_place.len()
    }

    /// The number of the query at a place in the order of work. It is found at once where its number is its place.
    pub fn get(&self, place: usize) -> usize
        requires { place < length self.now }
        ensures value { slice_get self.now place ≡ Some result }
        ensures within { result < length self.now }
    {
        let turn = self.by_place.get(place).other;
        find(&self.by_number, turn, place)
    }

    /// The place of the query with a number in the order of work. It is found at once where its number is its place.
    pub fn place_of(&self, number: usize) -> usize
        requires { number < length self.now }
        ensures value { result ≡ position_or_len (λ other. number == other) self.now }
        ensures within { result < length self.now }
    {
        let turn = self.by_number.get(number).other;
        find(&self.by_place, turn, number)
    }

    /// Puts a query last, in number and in the order of work. Want of memory, or of a turn below 2^64 - 1, changes nothing.
    pub fn add(&mut self) -> Result<(), Memory>
        ensures ok { OnOk result (self.new ≡ self.old ++ length self.old ∷ []) }
        ensures kept { OnErr result (self.new ≡ self.old) }
    {
        if self.next == usize::MAX {
            return Err(Memory);
        }
        add_turn(&mut self.by_place, &mut self.by_number, self.next)?;
        self.next += 1;
        Ok(())
    }

    /// Takes the last query out again, which has the greatest number. Takes no memory.
    pub fn pop(&mut self)
        requires { slice_get self.old (length self.old - 1) ≡ Some (length self.old - 1) }
        ensures { self.new ≡ take (length self.old - 1) self.old }
    {
        let last = self.len() - 1;
        self.leave(last);
    }

    /// Takes the query with a number out: each greater number is one less then. Takes no memory.
    pub fn leave(&mut self, number: usize)
        requires { number < length self.old }
        ensures { self.new ≡ map (moved_down number) (remove self.old (position_or_len (λ other. number == other) self.old)) }
    {
        let place = self.place_of(number);
        self.by_place.remove(place);
        self.by_number.remove(number);
    }
}

// Puts a turn last in both orders.
fn add_turn(
    by_place: &mut LongList<Turn>,
    by_number: &mut LongList<Turn>,
    own: usize,
) -> Result<(), Memory>
    ensures ok { OnOk result (IsAdded by_place.old by_number.old own by_place.new by_number.new) }
    ensures places_kept { OnErr result (by_place.new ≡ by_place.old) }
    ensures numbers_kept { OnErr result (by_number.new ≡ by_number.old) }
{
    let turn = Turn { own, other: own };
    let many = by_place.len();
    by_place.add(turn)?;
    if let Err(_) = by_number.add(turn) {
        by_place.truncate(many);
        return Err(Memory);
    }
    Ok(())
}

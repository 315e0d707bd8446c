//! The new binding of a FOLD.
ghost use Rattle.std.specs.Prelude.{◌≡◌, ◌≢◌, ◌<◌, [], ◌∷◌, length, map, MatchOption, IfOk, IfErr, IfSome, OnOk, None};
ghost use Rattle.std.specs.List.{range_with_len};
ghost use Rattle.cel_grammar.specs.Views.{agg_of};
ghost use Rattle.cel_types.specs.Aggregates.{FailToAssign, IsAttributeAt, is_among};
ghost use Rattle.cel_types.specs.Assigning.{Assigns, Rebinds, names_in};
ghost use Rattle.scalar_expr.specs.Views.{sc_of};
ghost use Rattle.semantics.specs.Scalars.{Binding};
ghost use Rattle.stream_schema.specs.Schema.{place_of};

use crate::fault::TypeFault;
use crate::items::duplicate;
use crate::scalars::scalar;
use crate::scope::Scope;
use cel_grammar::Agg;
use event_types::{Kind, List, Memory, Text};
use scalar_expr::{Scalar, Scalars};
use std::alloc::Global;
use stream_schema::Schema;

/// The terms of the new binding: what the aggregates assign, and else the values of the old one.
pub fn rebind(
    alloc: Global,
    binding: &Schema,
    event: &Schema,
    aggs: &[Agg],
) -> Result<Scalars, TypeFault>
    ensures ok { IfOk result (λ terms. Rebinds binding.now event.now (map agg_of aggs.now) (map sc_of terms)) }
    ensures err { IfErr result (λ fault. fault ≢ TypeFault.Memory → FailToAssign binding.now event.now [] (map agg_of aggs.now) fault) }
{
    let mut terms = old_values(alloc, binding.size())?;
    for place in 0..aggs.len() {
        assign(
            alloc,
            binding,
            event,
            &mut terms,
            &aggs[..place],
            &aggs[place],
        )?;
    }
    Ok(listed(alloc, terms)?)
}

// The terms of the values of the old binding.
fn old_values(alloc: Global, count: usize) -> Result<Vec<Scalar>, Memory>
    ensures { IfOk result (λ terms. map sc_of terms.items ≡ map Binding (range_with_len 0 count)) }
{
    let mut terms = Vec::new(alloc);
    for place in 0..count {
        terms.push(Scalar::Binding(place))?;
    }
    Ok(terms)
}

// Puts the term of an aggregate at the place of its name, behind aggregates.
#[tactic(auto, using(crate::proofs::AssignRules::assign_rules))]
fn assign(
    alloc: Global,
    binding: &Schema,
    event: &Schema,
    terms: &mut Vec<Scalar>,
    before: &[Agg],
    agg: &Agg,
) -> Result<(), TypeFault>
    requires { length terms.old.items ≡ length binding.now }
    ensures ok { OnOk result (Assigns binding.now event.now (names_in (map agg_of before.now)) (agg_of agg.now) (map sc_of terms.old.items) (map sc_of terms.new.items)) }
    ensures err { IfErr result (λ fault. fault ≢ TypeFault.Memory → FailToAssign binding.now event.now (names_in (map agg_of before.now)) (agg_of agg.now ∷ []) fault) }
{
    let name = agg.name.as_str();
    let (place, want) = match find(binding, name) {
        Some(found) => found,
        None => return Err(unassignable(alloc, name)),
    };
    if has_name(before, name) {
        return Err(duplicate(alloc, name));
    }
    let (term, got) = scalar(alloc, &Scope::Iteration(binding, event), &agg.value)?;
    if want != got {
        return Err(TypeFault::KindMismatch { want, got });
    }
    terms[place] = term;
    Ok(())
}

// The place and the kind of an attribute of the binding.
#[tactic(auto, using(crate::proofs::AssignRules::find_rules))]
fn find(binding: &Schema, name: &str) -> Option<(usize, Kind)>
    ensures value { MatchOption result (place_of name.now binding.now ≡ None) (λ p. IsAttributeAt binding.now name.now p.0 p.1) }
    ensures within { IfSome result (λ p. p.0 < length binding.now) }
{
    let place = binding.find(name)?;
    Some((place, binding.kind(place)))
}

// Whether one of the aggregates has the name.
fn has_name(aggs: &[Agg], name: &str) -> bool
    ensures { result ≡ is_among (names_in (map agg_of aggs.now)) name.now }
{
    for agg in aggs {
        if name == agg.name.as_str() {
            return true;
        }
    }
    false
}

// The fault that the binding has no attribute of this name.
fn unassignable(alloc: Global, name: &str) -> TypeFault
    ensures { result ≢ TypeFault.Memory → result ≡ TypeFault.NotAssignable name.now }
{
    match Text::make(alloc, name) {
        Ok(name) => TypeFault::NotAssignable { name },
        Err(_) => TypeFault::Memory,
    }
}

// The terms as a list.
fn listed(alloc: Global, terms: Vec<Scalar>) -> Result<Scalars, Memory>
    ensures { IfOk result (λ list. list ≡ terms.items) }
{
    let mut list = List::new(alloc);
    for term in terms {
        list.add(term)?;
    }
    Ok(list)
}

//! The classes of a conjunction's parts.
ghost use Rattle.std.specs.Prelude.{◌≡◌};
ghost use Rattle.semantics.specs.Scalars.{Dur, Lit, Test};
ghost use Rattle.scalar_expr.specs.Classes.{bounded, class_of, class_of_part, exchanged, fixed, is_fixed, keyed};
ghost use Rattle.scalar_expr.specs.Views.{pr_of, sc_of};

use crate::predicate::Pred;
use crate::scalar::Scalar;
use event_types::{Cmp, Value};

/// What a part of a conjunction asks, as far as instances and steps are looked up by it.
#[derive(Clone, Copy)]
pub enum Part<'a> {
    /// The attribute of the event at the place `attr` against a literal: `$2.Price > 5`. Never `<>`.
    Fixed {
        attr: usize,
        cmp: Cmp,
        lit: &'a Value,
    },
    /// An attribute of the event equals one of the binding: `$2.Name = $1.Name`.
    Key {
        event: usize,
        binding: usize,
    },
    /// `DUR < most` where `strict`, else `DUR <= most`.
    Bound {
        strict: bool,
        most: i128,
    },
    /// All else.
    Rest,
}

// The class of a predicate.
pub(crate) fn classed(predicate: &Pred) -> Part<'_>
    ensures { class_of_part result ≡ class_of (pr_of predicate.now) }
{
    match predicate {
        Pred::Test(x, cmp, y) => test_class(x, *cmp, y),
        _ => Part::Rest,
    }
}

// Whether a predicate is a fixed part.
pub(crate) fn is_fixed(predicate: &Pred) -> bool
    ensures { result ≡ is_fixed (pr_of predicate.now) }
{
    matches!(classed(predicate), Part::Fixed { .. })
}

// The class of a comparison.
fn test_class<'a>(x: &'a Scalar, cmp: Cmp, y: &'a Scalar) -> Part<'a>
    ensures { class_of_part result ≡ class_of (Test (sc_of x.entry.now) cmp (sc_of y.entry.now)) }
{
    match x {
        Scalar::Event(place) => match y {
            Scalar::Lit(lit) => fixed_part(*place, cmp, lit),
            Scalar::Binding(bound) => key_part(*place, cmp, *bound),
            _ => Part::Rest,
        },
        Scalar::Lit(lit) => match y {
            Scalar::Event(place) => fixed_part(*place, exchange(cmp), lit),
            _ => Part::Rest,
        },
        Scalar::Binding(bound) => match y {
            Scalar::Event(place) => key_part(*place, cmp, *bound),
            _ => Part::Rest,
        },
        Scalar::Dur => match y {
            Scalar::Lit(lit) => bound_part(cmp, lit),
            _ => Part::Rest,
        },
        _ => Part::Rest,
    }
}

// The comparison that says the same with its operands exchanged.
fn exchange(cmp: Cmp) -> Cmp
    ensures { result ≡ exchanged cmp }
{
    match cmp {
        Cmp::Eq => Cmp::Eq,
        Cmp::Ne => Cmp::Ne,
        Cmp::Lt => Cmp::Gt,
        Cmp::Le => Cmp::Ge,
        Cmp::Gt => Cmp::Lt,
        Cmp::Ge => Cmp::Le,
    }
}

// An attribute of the event against a literal.
fn fixed_part<'a>(attr: usize, cmp: Cmp, lit: &'a Value) -> Part<'a>
    ensures { class_of_part result ≡ fixed attr cmp lit.entry.now }
{
    match cmp {
        Cmp::Ne => Part::Rest,
        _ => Part::Fixed { attr, cmp, lit },
    }
}

// An attribute of the event against one of the binding.
fn key_part<'a>(event: usize, cmp: Cmp, binding: usize) -> Part<'a>
    ensures { class_of_part result ≡ keyed event cmp binding }
{
    match cmp {
        Cmp::Eq => Part::Key { event, binding },
        _ => Part::Rest,
    }
}

// DUR against a literal.
fn bound_part<'a>(cmp: Cmp, lit: &'a Value) -> Part<'a>
    ensures { class_of_part result ≡ class_of (Test Dur cmp (Lit lit.entry.now)) }
{
    match lit {
        Value::Int(most) => limit(cmp, *most),
        _ => Part::Rest,
    }
}

// DUR against a number.
fn limit<'a>(cmp: Cmp, most: i128) -> Part<'a>
    ensures { class_of_part result ≡ bounded cmp most }
{
    match cmp {
        Cmp::Lt => Part::Bound { strict: true, most },
        Cmp::Le => Part::Bound {
            strict: false,
            most,
        },
        _ => Part::Rest,
    }
}

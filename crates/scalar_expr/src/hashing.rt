//! Hashes of conjunctions and projections.
ghost use Rattle.std.specs.Prelude.{◌≡◌};
ghost use Rattle.scalar_expr.specs.Hashes.{with_condition, with_pred, with_projection, with_scalar, with_value};
ghost use Rattle.scalar_expr.specs.TermOrder.{cmp_place};
ghost use Rattle.scalar_expr.specs.Views.{pr_of, sc_of};

use crate::conjunction::Conj;
use crate::ordering::{pred_place, scalar_place};
use crate::predicate::Pred;
use crate::projection::Map;
use crate::scalar::Scalar;
use event_types::{Cmp, Value};
use std::hash::{DefaultHasher, Hasher};

impl Conj {
    /// Goes on with a hash by the parts. Takes no memory.
    pub fn add_to(&self, hasher: &mut DefaultHasher)
        ensures { hasher.new ≡ with_condition hasher.old self.now }
    {
        for part in self.parts() {
            hash_pred(hasher, part);
        }
    }
}

impl Map {
    /// Goes on with a hash by the width and the scalars. Takes no memory.
    pub fn add_to(&self, hasher: &mut DefaultHasher)
        ensures { hasher.new ≡ with_projection hasher.old self.now }
    {
        hasher.write_usize(self.width);
        for scalar in self.scalars() {
            hash_scalar(hasher, scalar);
        }
    }
}

// Goes on with a predicate.
fn hash_pred(hasher: &mut DefaultHasher, predicate: &Pred)
    ensures { hasher.new ≡ with_pred hasher.old (pr_of predicate.now) }
{
    hasher.write_u8(pred_place(predicate));
    match predicate {
        Pred::True => {}
        Pred::Test(x, cmp, y) => {
            hasher.write_u8(place_of(*cmp));
            hash_scalar(hasher, x);
            hash_scalar(hasher, y);
        }
        Pred::And(left, right) => {
            hash_pred(hasher, left);
            hash_pred(hasher, right);
        }
        Pred::Or(left, right) => {
            hash_pred(hasher, left);
            hash_pred(hasher, right);
        }
        Pred::Not(denied) => hash_pred(hasher, denied),
    }
}

// The place of a comparison.
fn place_of(cmp: Cmp) -> u8
    ensures { result ≡ cmp_place cmp }
{
    match cmp {
        Cmp::Eq => 0,
        Cmp::Ne => 1,
        Cmp::Lt => 2,
        Cmp::Le => 3,
        Cmp::Gt => 4,
        Cmp::Ge => 5,
    }
}

// Goes on with a scalar.
fn hash_scalar(hasher: &mut DefaultHasher, scalar: &Scalar)
    ensures { hasher.new ≡ with_scalar hasher.old (sc_of scalar.now) }
{
    hasher.write_u8(scalar_place(scalar));
    match scalar {
        Scalar::Lit(value) => hash_value(hasher, value),
        Scalar::Event(place) => hasher.write_usize(*place),
        Scalar::Binding(place) => hasher.write_usize(*place),
        Scalar::Dur => {}
        Scalar::Add(x, y) => {
            hash_scalar(hasher, x);
            hash_scalar(hasher, y);
        }
        Scalar::Sub(x, y) => {
            hash_scalar(hasher, x);
            hash_scalar(hasher, y);
        }
        Scalar::Mul(x, y) => {
            hash_scalar(hasher, x);
            hash_scalar(hasher, y);
        }
        Scalar::Min(x, y) => {
            hash_scalar(hasher, x);
            hash_scalar(hasher, y);
        }
        Scalar::Max(x, y) => {
            hash_scalar(hasher, x);
            hash_scalar(hasher, y);
        }
    }
}

// Goes on with a literal.
fn hash_value(hasher: &mut DefaultHasher, value: &Value)
    ensures { hasher.new ≡ with_value hasher.old value.now }
{
    match value {
        Value::Int(number) => hasher.write_i128(*number),
        Value::Over => {}
        Value::Text(text) => hasher.write(text.as_str().as_bytes()),
        Value::Dec { units, .. } => hasher.write_i128(*units),
    }
}

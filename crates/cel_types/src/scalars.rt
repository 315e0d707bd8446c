//! The terms and kinds of scalars.
ghost use Rattle.std.specs.Prelude.{◌≡◌, ◌≢◌, IfOk, IfErr, Some, None};
ghost use Rattle.event_types.specs.declared.kind.Kind.TheVariants as kind;
ghost use Rattle.event_types.specs.declared.value.Value.TheVariants as value;
ghost use Rattle.cel_grammar.specs.Trees.{Attr};
ghost use Rattle.cel_grammar.specs.Views.{scalar_of};
ghost use Rattle.cel_types.specs.Operands.{FailsAsOperand};
ghost use Rattle.cel_types.specs.Scalars.{HasFault, IsOf, product_fault};
ghost use Rattle.cel_types.specs.Views.{scope_of};
ghost use Rattle.scalar_expr.specs.Views.{sc_of};
ghost use Rattle.semantics.specs.OpKinds.{alike_kind, product_kind};
ghost use Rattle.semantics.specs.Scalars.{Lit};

use crate::fault::TypeFault;
use crate::scope::{Scope, spelled};
use cel_grammar::{Mark, Raw};
use event_types::{Copied, Kind, Value};
use scalar_expr::{Scalar, alike_kind, product_kind};
use std::alloc::Global;

/// The term that a scalar means, and its kind.
#[cycle(scalars)]
#[tactic(auto, using(crate::proofs::TypingRules::scalar_rules))]
pub fn scalar(alloc: Global, scope: &Scope<'_>, raw: &Raw) -> Result<(Scalar, Kind), TypeFault>
    ensures ok { IfOk result (λ p. IsOf (scope_of scope.now) (scalar_of raw.now) (sc_of p.0) p.1) }
    ensures err { IfErr result (λ fault. fault ≢ TypeFault.Memory → HasFault (scope_of scope.now) (scalar_of raw.now) fault) }
{
    match raw {
        Raw::Number(number) => Ok((Scalar::Lit(numeral(number)), Kind::Int)),
        Raw::Quoted(text) => Ok((Scalar::Lit(Value::Text(text.copied(alloc)?)), Kind::Text)),
        Raw::Attr(mark, name) => attribute(alloc, scope, *mark, name.as_str()),
        Raw::Dur => Ok((Scalar::Dur, Kind::Int)),
        Raw::Add(x, y) => {
            let (x, left) = operand(alloc, scope, x)?;
            let (y, right) = boxed(alloc, scope, y)?;
            let kind = alike(left, right)?;
            Ok((Scalar::Add(x, y), kind))
        }
        Raw::Sub(x, y) => {
            let (x, left) = operand(alloc, scope, x)?;
            let (y, right) = boxed(alloc, scope, y)?;
            let kind = alike(left, right)?;
            Ok((Scalar::Sub(x, y), kind))
        }
        Raw::Mul(x, y) => {
            let (x, left) = operand(alloc, scope, x)?;
            let (y, right) = boxed(alloc, scope, y)?;
            let kind = multiplied(left, right)?;
            Ok((Scalar::Mul(x, y), kind))
        }
        Raw::Min(x, y) => {
            let (x, left) = operand(alloc, scope, x)?;
            let (y, right) = boxed(alloc, scope, y)?;
            let kind = alike(left, right)?;
            Ok((Scalar::Min(x, y), kind))
        }
        Raw::Max(x, y) => {
            let (x, left) = operand(alloc, scope, x)?;
            let (y, right) = boxed(alloc, scope, y)?;
            let kind = alike(left, right)?;
            Ok((Scalar::Max(x, y), kind))
        }
        Raw::Decimal { scale, units } => Ok((literal(scale, units), Kind::Dec(*scale))),
    }
}

// The term of a scalar in a box, and its kind.
#[cycle(scalars)]
fn boxed(alloc: Global, scope: &Scope<'_>, raw: &Raw) -> Result<(Box<Scalar>, Kind), TypeFault>
    ensures ok { IfOk result (λ p. IsOf (scope_of scope.now) (scalar_of raw.now) (sc_of p.0.value) p.1) }
    ensures err { IfErr result (λ fault. fault ≢ TypeFault.Memory → HasFault (scope_of scope.now) (scalar_of raw.now) fault) }
{
    let (term, kind) = scalar(alloc, scope, raw)?;
    Ok((Box::new(alloc, term)?, kind))
}

// The term of a left operand, which is no text, in a box, and its kind.
#[cycle(scalars)]
#[tactic(auto, using(crate::proofs::TypingRules::operand_rules))]
fn operand(alloc: Global, scope: &Scope<'_>, raw: &Raw) -> Result<(Box<Scalar>, Kind), TypeFault>
    ensures ok { IfOk result (λ p. IsOf (scope_of scope.now) (scalar_of raw.now) (sc_of p.0.value) p.1) }
    ensures no_text { IfOk result (λ p. p.1 ≢ kind.Text) }
    ensures err { IfErr result (λ fault. fault ≢ TypeFault.Memory → FailsAsOperand (scope_of scope.now) (scalar_of raw.now) fault) }
{
    let (term, kind) = boxed(alloc, scope, raw)?;
    if kind == Kind::Text {
        return Err(TypeFault::KindMismatch {
            want: Kind::Int,
            got: Kind::Text,
        });
    }
    Ok((term, kind))
}

// The kind of a sum, a difference, MIN or MAX of operands of these kinds.
fn alike(left: Kind, right: Kind) -> Result<Kind, TypeFault>
    ensures ok { IfOk result (λ k. alike_kind left right ≡ Some k) }
    ensures err { IfErr result (λ fault. (alike_kind left right ≡ None) × (fault ≡ TypeFault.KindMismatch left right)) }
{
    match alike_kind(left, right) {
        Some(kind) => Ok(kind),
        None => Err(mismatch(left, right)),
    }
}

// The kind of a product of operands of these kinds.
fn multiplied(left: Kind, right: Kind) -> Result<Kind, TypeFault>
    ensures ok { IfOk result (λ k. product_kind left right ≡ Some k) }
    ensures err { IfErr result (λ fault. (product_kind left right ≡ None) × (fault ≡ product_fault left right)) }
{
    match product_kind(left, right) {
        Some(kind) => Ok(kind),
        None => Err(product_fault(left, right)),
    }
}

// The fault of a product that has no kind, where the left operand is no text.
fn product_fault(left: Kind, right: Kind) -> TypeFault
    ensures { result ≡ product_fault left right }
{
    match (left, right) {
        (Kind::Dec(places), Kind::Dec(others)) => TypeFault::TooFine {
            places: places as usize + others as usize,
        },
        _ => mismatch(Kind::Int, right),
    }
}

fn mismatch(want: Kind, got: Kind) -> TypeFault
    ensures { result ≡ TypeFault.KindMismatch want got }
{
    TypeFault::KindMismatch { want, got }
}

// A decimal as a term.
fn literal(scale: &u8, units: &i128) -> Scalar
    ensures { sc_of result ≡ Lit (value.Dec scale.now units.now) }
{
    Scalar::Lit(Value::Dec {
        scale: *scale,
        units: *units,
    })
}

// The value of a number.
fn numeral(number: &i128) -> Value
    ensures { result ≡ value.Int number.now }
{
    Value::Int(*number)
}

// The term of an attribute, and its kind.
#[tactic(auto, using(crate::proofs::ScalarSteps::is_found, crate::proofs::ScalarSteps::is_unknown))]
fn attribute(
    alloc: Global,
    scope: &Scope<'_>,
    mark: Mark,
    name: &str,
) -> Result<(Scalar, Kind), TypeFault>
    ensures ok { IfOk result (λ p. IsOf (scope_of scope.now) (Attr mark name.now) (sc_of p.0) p.1) }
    ensures err { IfErr result (λ fault. fault ≢ TypeFault.Memory → HasFault (scope_of scope.now) (Attr mark name.now) fault) }
{
    match scope.find(mark, name) {
        Some(typed) => Ok(typed),
        None => Err(TypeFault::UnknownAttr {
            name: spelled(alloc, mark, name)?,
        }),
    }
}

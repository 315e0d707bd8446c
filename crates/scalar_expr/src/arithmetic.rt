//! Operations on numbers and decimals.
ghost use Rattle.std.specs.Prelude.{◌≡◌, ◌*ℤ◌};
ghost use Rattle.event_types.specs.ValueOfRef.{value_of_ref};
ghost use Rattle.event_types.specs.declared.value.Value.TheVariants as value;
ghost use Rattle.semantics.specs.Scalars.{Add, Sub, Mul, Min, Max};
ghost use Rattle.semantics.specs.Values.{combined, scaled};

use event_types::ValueRef;

// The sum, or OVER.
pub(crate) fn sum<'a>(x: ValueRef<'a>, y: ValueRef<'a>) -> ValueRef<'a>
    ensures { value_of_ref result ≡ combined Add (value_of_ref x.entry) (value_of_ref y.entry) }
{
    match (x, y) {
        (ValueRef::Int(x), ValueRef::Int(y)) => match x.checked_add(y) {
            Some(z) => ValueRef::Int(z),
            None => ValueRef::Over,
        },
        (ValueRef::Dec { scale: s, units: x }, ValueRef::Dec { scale: t, units: y }) => {
            decimal_sum(s, x, t, y)
        }
        _ => ValueRef::Over,
    }
}

// The difference, or OVER.
pub(crate) fn difference<'a>(x: ValueRef<'a>, y: ValueRef<'a>) -> ValueRef<'a>
    ensures { value_of_ref result ≡ combined Sub (value_of_ref x.entry) (value_of_ref y.entry) }
{
    match (x, y) {
        (ValueRef::Int(x), ValueRef::Int(y)) => match x.checked_sub(y) {
            Some(z) => ValueRef::Int(z),
            None => ValueRef::Over,
        },
        (ValueRef::Dec { scale: s, units: x }, ValueRef::Dec { scale: t, units: y }) => {
            decimal_difference(s, x, t, y)
        }
        _ => ValueRef::Over,
    }
}

// The product, or OVER.
pub(crate) fn product<'a>(x: ValueRef<'a>, y: ValueRef<'a>) -> ValueRef<'a>
    ensures { value_of_ref result ≡ combined Mul (value_of_ref x.entry) (value_of_ref y.entry) }
{
    match (x, y) {
        (ValueRef::Int(x), ValueRef::Int(y)) => match x.checked_mul(y) {
            Some(z) => ValueRef::Int(z),
            None => ValueRef::Over,
        },
        (ValueRef::Int(x), ValueRef::Dec { scale, units: y }) => decimal_product(scale, x, y),
        (ValueRef::Dec { scale, units: x }, ValueRef::Int(y)) => decimal_product(scale, x, y),
        (ValueRef::Dec { scale: s, units: x }, ValueRef::Dec { scale: t, units: y }) => {
            let scale = s as u32 + t as u32;
            if scale <= 18 {
                decimal_product(scale as u8, x, y)
            } else {
                ValueRef::Over
            }
        }
        _ => ValueRef::Over,
    }
}

// The decimal of this scale whose units are the product, or OVER.
fn decimal_product<'a>(scale: u8, x: i128, y: i128) -> ValueRef<'a>
    ensures { value_of_ref result ≡ scaled scale (x *ℤ y) }
{
    match x.checked_mul(y) {
        Some(units) => ValueRef::Dec { scale, units },
        None => ValueRef::Over,
    }
}

// The smaller of two numbers, or OVER.
pub(crate) fn smaller<'a>(x: ValueRef<'a>, y: ValueRef<'a>) -> ValueRef<'a>
    ensures { value_of_ref result ≡ combined Min (value_of_ref x.entry) (value_of_ref y.entry) }
{
    match (x, y) {
        (ValueRef::Int(x), ValueRef::Int(y)) => ValueRef::Int(x.min(y)),
        (ValueRef::Dec { scale: s, units: x }, ValueRef::Dec { scale: t, units: y }) => {
            smaller_decimal(s, x, t, y)
        }
        _ => ValueRef::Over,
    }
}

// The larger of two numbers, or OVER.
pub(crate) fn larger<'a>(x: ValueRef<'a>, y: ValueRef<'a>) -> ValueRef<'a>
    ensures { value_of_ref result ≡ combined Max (value_of_ref x.entry) (value_of_ref y.entry) }
{
    match (x, y) {
        (ValueRef::Int(x), ValueRef::Int(y)) => ValueRef::Int(x.max(y)),
        (ValueRef::Dec { scale: s, units: x }, ValueRef::Dec { scale: t, units: y }) => {
            larger_decimal(s, x, t, y)
        }
        _ => ValueRef::Over,
    }
}

// The sum of two decimals, or OVER.
fn decimal_sum<'a>(s: u8, x: i128, t: u8, y: i128) -> ValueRef<'a>
    ensures { value_of_ref result ≡ combined Add (value.Dec s x) (value.Dec t y) }
{
    if s != t {
        return ValueRef::Over;
    }
    match x.checked_add(y) {
        Some(units) => ValueRef::Dec { scale: s, units },
        None => ValueRef::Over,
    }
}

// The difference of two decimals, or OVER.
fn decimal_difference<'a>(s: u8, x: i128, t: u8, y: i128) -> ValueRef<'a>
    ensures { value_of_ref result ≡ combined Sub (value.Dec s x) (value.Dec t y) }
{
    if s != t {
        return ValueRef::Over;
    }
    match x.checked_sub(y) {
        Some(units) => ValueRef::Dec { scale: s, units },
        None => ValueRef::Over,
    }
}

// The smaller of two decimals, or OVER.
fn smaller_decimal<'a>(s: u8, x: i128, t: u8, y: i128) -> ValueRef<'a>
    ensures { value_of_ref result ≡ combined Min (value.Dec s x) (value.Dec t y) }
{
    if s != t {
        return ValueRef::Over;
    }
    ValueRef::Dec {
        scale: s,
        units: x.min(y),
    }
}

// The larger of two decimals, or OVER.
fn larger_decimal<'a>(s: u8, x: i128, t: u8, y: i128) -> ValueRef<'a>
    ensures { value_of_ref result ≡ combined Max (value.Dec s x) (value.Dec t y) }
{
    if s != t {
        return ValueRef::Over;
    }
    ValueRef::Dec {
        scale: s,
        units: x.max(y),
    }
}

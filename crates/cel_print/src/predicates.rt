//! The canonical text of predicates.
ghost use Rattle.std.specs.Prelude.{◌≡◌, ◌++◌, [], OnOk};
ghost use Rattle.cel_grammar.specs.Symbols as the;
ghost use Rattle.cel_grammar.specs.Views.{pred_of};
ghost use Rattle.cel_print.specs.Parts.{pred_text};
ghost use Rattle.cel_print.specs.Spelled.{spelling};

use crate::appending::{append, close_unless, open_unless};
use crate::places::{PredPlace, ScalarPlace, takes_and, takes_or};
use crate::scalars::append_scalar;
use cel_grammar::RawPred;
use event_types::{Cmp, Memory};

/// Puts a predicate behind a text, in parentheses where it may not stand at this place as it is.
pub(crate) fn append_pred(
    text: &mut Vec<u8>,
    place: PredPlace,
    pred: &RawPred,
) -> Result<(), Memory>
    ensures { OnOk result (text.new.items ≡ text.old.items ++ pred_text place (pred_of pred.now)) }
{
    match pred {
        RawPred::True => append(text, b"TRUE"),
        RawPred::Test(x, comparison, y) => {
            append_scalar(text, ScalarPlace::Scalar, x)?;
            append(text, b" ")?;
            append(text, sign(*comparison))?;
            append(text, b" ")?;
            append_scalar(text, ScalarPlace::Scalar, y)
        }
        RawPred::And(p, q) => {
            open_unless(text, takes_and(place))?;
            append_pred(text, PredPlace::Conj, p)?;
            append(text, b" AND ")?;
            append_pred(text, PredPlace::Neg, q)?;
            close_unless(text, takes_and(place))
        }
        RawPred::Or(p, q) => {
            open_unless(text, takes_or(place))?;
            append_pred(text, PredPlace::Pred, p)?;
            append(text, b" OR ")?;
            append_pred(text, PredPlace::Conj, q)?;
            close_unless(text, takes_or(place))
        }
        RawPred::Not(p) => {
            append(text, b"NOT ")?;
            append_pred(text, PredPlace::Neg, p)
        }
    }
}

// The sign of a comparison.
fn sign(comparison: Cmp) -> &'static [u8]
    ensures { result.now ≡ spelling (the.Compare comparison) }
{
    match comparison {
        Cmp::Eq => b"=",
        Cmp::Ne => b"<>",
        Cmp::Lt => b"<",
        Cmp::Le => b"<=",
        Cmp::Gt => b">",
        Cmp::Ge => b">=",
    }
}

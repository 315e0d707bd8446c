//! The text of a derivation.
ghost use Rattle.std.specs.Prelude.{◌≡◌, ◌≤◌, ◌++◌, IfOk, OnOk, length, map, string_bytes};
ghost use Rattle.derivations.specs.Derivation.{listed};
ghost use Rattle.derivations.specs.Views.{derivation_of};
ghost use Rattle.derivations.specs.Texts.{HasPlaces, HavePlaces, all_text, by_text, line_at};

use crate::deriv::Deriv;
use crate::history::{Heard, History};
use event_types::{Memory, Text};
use std::alloc::Global;

/// The text of a derivation: an event is the number of its line, and the others are as `Q(1)`, `L(1)`, `R(1)`, `N(1,2)`
/// and `F(1,2,3)`, which has the first binding and then all events.
pub fn deriv_text(alloc: Global, deriv: &Deriv, history: &History) -> Result<Text, Memory>
    requires { HasPlaces history.now (derivation_of deriv.now) }
    ensures { IfOk result (λ text. text ≡ by_text history.now (derivation_of deriv.now)) }
{
    let mut text = String::new(alloc);
    append_deriv(&mut text, deriv, history.as_slice())?;
    Text::make(alloc, text.as_str())
}

// Puts a derivation behind a text.
#[cycle(texts)]
fn append_deriv(text: &mut String, deriv: &Deriv, lines: &[Heard]) -> Result<(), Memory>
    requires { HasPlaces lines.now (derivation_of deriv.now) }
    ensures { OnOk result (string_bytes text.new ≡ string_bytes text.old ++ by_text lines.now (derivation_of deriv.now)) }
{
    match deriv {
        Deriv::Event(place) => append_line(text, lines, *place),
        Deriv::Query(by) => {
            append(text, "Q(")?;
            append_deriv(text, by, lines)?;
            append(text, ")")
        }
        Deriv::Left(by) => {
            append(text, "L(")?;
            append_deriv(text, by, lines)?;
            append(text, ")")
        }
        Deriv::Right(by) => {
            append(text, "R(")?;
            append_deriv(text, by, lines)?;
            append(text, ")")
        }
        Deriv::Next(by, next) => {
            append(text, "N(")?;
            append_deriv(text, by, lines)?;
            append(text, ",")?;
            append_deriv(text, next, lines)?;
            append(text, ")")
        }
        Deriv::Fold(by, events) => {
            append(text, "F(")?;
            append_deriv(text, by, lines)?;
            append_all(text, events.as_slice(), lines)?;
            append(text, ")")
        }
    }
}

// Puts derivations behind a text, a comma before each.
#[cycle(texts)]
fn append_all(text: &mut String, derivs: &[Deriv], lines: &[Heard]) -> Result<(), Memory>
    requires { HavePlaces lines.now (listed (map derivation_of derivs.now)) }
    ensures { OnOk result (string_bytes text.new ≡ string_bytes text.old ++ all_text lines.now (listed (map derivation_of derivs.now))) }
{
    for place in 0..derivs.len() {
        append(text, ",")?;
        append_deriv(text, &derivs[place], lines)?;
    }
    Ok(())
}

// Puts the number of an event's line behind a text; its place is counted from 1.
fn append_line(text: &mut String, lines: &[Heard], place: usize) -> Result<(), Memory>
    requires some { 1 ≤ place }
    requires within { place ≤ length lines.now }
    ensures { OnOk result (string_bytes text.new ≡ string_bytes text.old ++ line_at lines.now place) }
{
    let line = lines[place - 1].line;
    write!(text, "{line}")?;
    Ok(())
}

// Puts a piece behind a text.
fn append(text: &mut String, piece: &str) -> Result<(), Memory>
    ensures { OnOk result (string_bytes text.new ≡ string_bytes text.old ++ piece.now) }
{
    text.push_str(piece)?;
    Ok(())
}

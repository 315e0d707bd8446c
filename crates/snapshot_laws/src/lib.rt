//! Laws of engines that go on from what another one had: what is filled into an engine, and lines whose streams have
//! other numbers.
//!
//! The definitions stand in `specs/`. The functions are laws: they do nothing, and their contracts say what follows from
//! the definitions.
#![tactic(auto)]

ghost use Rattle.snapshot_laws.specs.Filling.{CarriedStands, FilledStands};
ghost use Rattle.snapshot_laws.specs.RenumberedPrograms.{RenumberedProgramsReportAlike};
ghost use Rattle.snapshot_laws.specs.Renumbering.{RenumberedLinesGiveTheSame, RenumberedStatesWaitAlike, StoresStandRenumbered};

/// Lines whose streams have other numbers give the same, each stream under its new number, and at their states the same
/// instances wait. Stores that stand for a history of lines stand for it and the renumbered ones.
pub fn renumbered_lines_are_alike()
    ensures streams { RenumberedLinesGiveTheSame }
    ensures states { RenumberedStatesWaitAlike }
    ensures stores { StoresStandRenumbered }
{}

/// An engine that had heard nothing, and whose stores were filled, stands for all lines and histories that its contents
/// fit.
pub fn filled_stands()
    ensures { FilledStands }
{}

/// An engine over renumbered lines that has what an engine has that stands for a history stands for the same history.
pub fn carried_stands()
    ensures { CarriedStands }
{}

/// Programs whose streams have other numbers, where declared ones keep theirs, report the same.
pub fn renumbered_programs_are_alike()
    ensures { RenumberedProgramsReportAlike }
{}

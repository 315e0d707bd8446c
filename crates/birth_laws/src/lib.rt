//! Laws of programs whose queries came at different times.
//!
//! The functions are laws: they do nothing, and their contracts say what follows from the definitions.
//! The automaton lines of a program have the births of their queries (`born_lines`), and by them each
//! query has what it denotes over what is detected after its birth.
#![tactic(auto)]

ghost use Rattle.birth_laws.specs.BornPrograms.{BornLinesAreTheLines, BornLinesMeanTheirExpression, BornLinesMeanTheirProgram};
ghost use Rattle.birth_laws.specs.LeastBirths.{EachPrefixHasALeastBirth};

/// The lines of a program with births are its lines, so a network and a layout for these serve.
pub fn born_lines_are_the_lines()
    ensures { BornLinesAreTheLines }
{}

/// Lines of one query with its birth publish exactly what its expression denotes over what is detected
/// after the birth.
///
/// So it is over streams in which no tuple is detected before it starts, and where the expression meets
/// what `lines_mean_their_expression` asks of it.
pub fn born_lines_mean_their_expression()
    ensures { BornLinesMeanTheirExpression }
{}

/// Over sound events of their streams' kinds the lines of a wide program, with the births of its
/// queries, give exactly the streams of the program.
pub fn born_lines_mean_their_program()
    ensures { BornLinesMeanTheirProgram }
{}

/// The lines that use a state have a least birth: whatever began no later than it is of no use to any of them.
pub fn each_prefix_has_a_least_birth()
    ensures { EachPrefixHasALeastBirth }
{}

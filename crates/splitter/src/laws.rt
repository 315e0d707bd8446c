//! Laws over the lines of expressions.
ghost use Rattle.splitter.specs.Laws.{AddedLinesMeanTheirExpression, LinesAreInOrder, LinesMeanTheirExpression};

/// The lines of an expression may be worked on in their order.
pub fn lines_are_in_order()
    ensures { LinesAreInOrder }
{}

/// The automaton lines of an expression publish exactly what it denotes, and change no other stream
/// than their own.
///
/// So it is where each projection of a SELECT meets tuples of its width, and where the streams stand
/// apart: the expression doesn't read the stream that it publishes, and the numbers of its hidden
/// streams are above that stream and all that it reads.
pub fn lines_mean_their_expression()
    ensures { LinesMeanTheirExpression }
{}

/// So do they behind the lines of other queries, over the streams that those give, whose own streams
/// they leave as they are.
///
/// Beside what the law above asks, where the widths are those of the streams that the other lines
/// give, those lines use none of these streams: they neither read nor publish one.
pub fn added_lines_mean_their_expression()
    ensures { AddedLinesMeanTheirExpression }
{}

//! Laws over the lines of programs.
ghost use Rattle.splitter.specs.ProgramLaws.{ChainsAreInOrder, ChainsMeanTheirProgram, PlainNetworksFit, QueriesAreDerived};

/// The lines of a program may be worked on in their order, where the hidden streams of each query have
/// numbers of their own.
pub fn chains_are_in_order()
    ensures { ChainsAreInOrder }
{}

/// Over events of their streams' kinds the automaton lines of a typed program, whose projections are as
/// wide as their sources and whose queries were there from the start, give exactly the streams of the
/// program.
pub fn chains_mean_their_program()
    ensures { ChainsMeanTheirProgram }
{}

/// Over such events the stream of each query has exactly the tuples that its lines give.
pub fn queries_are_derived()
    ensures { QueriesAreDerived }
{}

/// A layout that fits lines fits their plain network.
pub fn plain_networks_fit()
    ensures { PlainNetworksFit }
{}

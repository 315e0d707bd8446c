//! Laws of what the closing of an epoch gives.
ghost use Rattle.session.specs.ClosingGivesResults.{ClosingGivesResults, ClosingGivesResultsOfCatalogue, ClosingGivesResultsOfText};

/// The closing of an epoch gives exactly the results of each query, whatever other queries share its
/// states and whenever it came.
pub fn closing_gives_results()
    ensures { ClosingGivesResults }
{}

/// For the queries of a catalogue it gives them by their numbers, whatever queries came and left.
pub fn closing_gives_results_of_catalogue()
    ensures { ClosingGivesResultsOfCatalogue }
{}

/// For an accepted text it gives them in the order of the file.
pub fn closing_gives_results_of_text()
    ensures { ClosingGivesResultsOfText }
{}

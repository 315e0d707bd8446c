//! Laws of readings and faults.
ghost use Rattle.cel_parser.specs.Laws.{NotBoth, OneFault, OneOfBoth, OneReading};
ghost use Rattle.cel_parser.specs.QueryLaws.{OneFaultOfQuery, OneQueryReading, QueryNotBoth, QueryOrFault};

/// A text has at most one reading and at most one fault, not both, and one of them where it has tokens. So
/// `parse` refuses exactly the texts that have a fault, want of memory aside.
pub fn one_answer()
    ensures reading { OneReading }
    ensures fault { OneFault }
    ensures not_both { NotBoth }
    ensures one_of_both { OneOfBoth }
{}

/// A text is at most one query and has at most one fault for which it is none, not both, and one of them where it
/// has tokens. So `parse_one` refuses exactly the texts that have such a fault, want of memory aside.
pub fn one_query_answer()
    ensures reading { OneQueryReading }
    ensures fault { OneFaultOfQuery }
    ensures not_both { QueryNotBoth }
    ensures one_of_both { QueryOrFault }
{}

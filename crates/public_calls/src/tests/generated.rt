//! Texts by hand: the draws of the seed 1 are 16838, 5758, 10113, 17515, 31051, 5627, 23010, 7419, 16212,
//! 4086, 2749, 12767 and so on.
use load_texts::{EventText, PIECE, event_text, query_text};
use std::test::Fail;

/// The text of four events from the seed 1.
const FOUR_EVENTS: &str =
    "Stock,,1,S838,5758,113\nStock,,1,S515,1051,627\nStock,,2,S10,7419,212\nStock,,2,S86,2749,767\n";

#[test]
fn four_events_have_two_detection_times_and_one_query(rt: HostRuntime) -> Result<(), Fail> {
    assert_eq!(rt; event_text(rt.alloc(), 1, 4)?.as_str(), FOUR_EVENTS);
    assert_eq!(rt;
        query_text(rt.alloc(), 4)?.as_str(),
        "STREAM Stock (Name TEXT, Price INT, Volume INT);\nSELECT * FROM FILTER {Price >= 7000} Stock PUBLISH Q0;\n"
    );
    Ok(())
}

#[test]
fn a_text_comes_in_pieces_of_which_the_last_is_shorter(rt: HostRuntime) -> Result<(), Fail> {
    let mut text = EventText::of(rt.alloc(), 1, 4);
    let mut piece = Vec::new(rt.alloc());
    text.next_piece(&mut piece)?;
    assert!(rt; piece.as_slice() == FOUR_EVENTS.as_bytes());
    text.next_piece(&mut piece)?;
    assert!(rt; piece.is_empty());
    let mut longer = EventText::of(rt.alloc(), 1, 200);
    longer.next_piece(&mut piece)?;
    assert_eq!(rt; piece.len(), PIECE);
    Ok(())
}

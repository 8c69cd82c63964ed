// Small rows and diagonals, filled and denied.
use crate::asking::Logger;
use crate::chosen::Chosen;
use crate::diagonals::Diagonal;
use crate::kept_table::KeptTable;
use crate::table_logger::TableLogger;
use denials::Denial;
use std::test::Fail;

#[test]
fn row_fills(rt: HostRuntime) -> Result<(), Fail> {
    let mut place = TableLogger::new();
    place.fill(&[0, 1, 1, 5, 9])?;
    assert!(rt; place.span() == 4);
    assert!(rt; place.count(3) == Some(5));
    assert!(rt; place.count(5) == None);
    Ok(())
}

#[test]
fn fall_is_denied(rt: HostRuntime) {
    let mut place = TableLogger::new();
    assert!(rt; place.fill(&[0, 3, 2]) == Err(Denial::Falls(2)));
    assert!(rt; place.span() == 1);
}

#[test]
fn one_value_is_denied(rt: HostRuntime) {
    let mut place = TableLogger::new();
    assert!(rt; place.fill(&[7]) == Err(Denial::Span));
}

#[test]
fn steep_diagonal_is_denied(rt: HostRuntime) -> Result<(), Fail> {
    let steepest = Diagonal::new(5, 858_993_459)?;
    assert!(rt; steepest.last() == u32::MAX);
    assert!(rt; Diagonal::new(5, 858_993_460).is_err());
    Ok(())
}

#[test]
fn kept_rows_answer_alike(rt: HostRuntime) -> Result<(), Fail> {
    let values = [0, 1, 1, 5, 9];
    let array = KeptTable::new(values)?;
    let heap = KeptTable::new(Vec::from_array(rt.alloc(), values)?)?;
    assert!(rt; array.len() == 5);
    assert!(rt; answers(&array) == (4, 0, 9, Some(5), None));
    assert!(rt; answers(&heap) == (4, 0, 9, Some(5), None));
    assert!(rt; answers(&Chosen::Table(heap)) == (4, 0, 9, Some(5), None));
    Ok(())
}

#[test]
fn chosen_diagonal_answers(rt: HostRuntime) -> Result<(), Fail> {
    let chosen: Chosen<Vec<u32>> = Chosen::Diagonal(Diagonal::new(4, 3)?);
    assert!(rt; answers(&chosen) == (4, 0, 12, Some(9), None));
    Ok(())
}

#[test]
fn kept_fall_is_denied(rt: HostRuntime) {
    assert!(rt; KeptTable::new([0, 3, 2]).err() == Some(Denial::Falls(2)));
    assert!(rt; KeptTable::new([7]).err() == Some(Denial::Span));
}

// The span, the ends, and the counts at 3 and at 5.
fn answers<L: Logger>(logger: &L) -> (u32, u32, u32, Option<u32>, Option<u32>) {
    (
        logger.span(),
        logger.first(),
        logger.last(),
        logger.count(3),
        logger.count(5),
    )
}

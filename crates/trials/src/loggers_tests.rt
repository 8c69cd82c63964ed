// Loggers: which are made, which are denied, and what they count.
use crate::looks::number;
use denials::Denial;
use loggers::{Diagonal, Logger, TableLogger};
use std::test::Fail;

#[test]
fn tables_are_denied_in_order(rt: HostRuntime) -> Result<(), Fail> {
    let mut place = TableLogger::new();
    place.fill(&[0, 1, 1, 5, 9])?;
    assert_eq!(rt; place.fill(&[]), Err(Denial::Span));
    assert_eq!(rt; place.fill(&[7]), Err(Denial::Span));
    assert_eq!(rt; place.fill(&[0, 3, 2, 1]), Err(Denial::Falls(2)));
    assert_eq!(rt; [place.span(), place.first(), place.last()], [4, 0, 9]);
    Ok(())
}

#[test]
fn tables_count_up_to_the_span(rt: HostRuntime) -> Result<(), Fail> {
    let mut place = TableLogger::new();
    place.fill(&[0, 1, 1, 5, 9])?;
    assert_eq!(rt;
        [
            place.count(0),
            place.count(3),
            place.count(4),
            place.count(5),
        ],
        [Some(0), Some(5), Some(9), None]
    );
    Ok(())
}

#[test]
fn diagonals_are_denied_in_order(rt: HostRuntime) {
    let denials = [
        number(Diagonal::new(0, 0)),
        number(Diagonal::new(1_000_001, 1)),
        number(Diagonal::new(12, 0)),
        number(Diagonal::new(5, 858_993_460)),
        number(Diagonal::new(5, 858_993_459)),
    ];
    assert_eq!(rt; denials, [1, 1, 12, 12, 0]);
}

#[test]
fn diagonals_count_up_to_the_span(rt: HostRuntime) -> Result<(), Fail> {
    let diagonal = Diagonal::new(12, 3)?;
    assert_eq!(rt;
        [diagonal.span(), diagonal.first(), diagonal.last()],
        [12, 0, 36]
    );
    assert_eq!(rt;
        [
            diagonal.count(0),
            diagonal.count(5),
            diagonal.count(12),
            diagonal.count(13),
        ],
        [Some(0), Some(15), Some(36), None]
    );
    Ok(())
}

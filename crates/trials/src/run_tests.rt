// Runs of both plans on both loggers, and what a run is denied for.
use crate::looks::{look_at, same_points};
use bench::{Line, run};
use loggers::{Diagonal, TableLogger};
use plans::{EqualSpacing, WidestRectangle};
use readout::Readout;
use std::test::Fail;

#[test]
fn spacing_on_a_diagonal(rt: HostRuntime) -> Result<(), Fail> {
    let diagonal = Diagonal::new(12, 3)?;
    let mut plan = EqualSpacing::new(3)?;
    let mut line = Line::asleep();
    let mut place = Readout::new();
    let ran = run(&diagonal, &mut plan, 3, 7, &mut line, &mut place)?;
    assert_eq!(rt; ran.asked, 3);
    assert_eq!(rt; ran.low, 198);
    assert_eq!(rt; ran.high, 270);
    assert_eq!(rt; place.left(), 0);
    assert_eq!(rt; line.awake, false);
    Ok(())
}

#[test]
fn rectangle_on_a_table(rt: HostRuntime) -> Result<(), Fail> {
    let mut table = TableLogger::new();
    table.fill(&[0, 1, 1, 5, 9])?;
    let mut plan = WidestRectangle::new();
    let mut line = Line::asleep();
    let mut place = Readout::new();
    let ran = run(&table, &mut plan, 2, 7, &mut line, &mut place)?;
    assert_eq!(rt; ran.asked, 2);
    assert_eq!(rt; ran.low, 15);
    assert_eq!(rt; ran.high, 16);
    Ok(())
}

#[test]
fn an_awake_line_is_denied(rt: HostRuntime) -> Result<(), Fail> {
    let diagonal = Diagonal::new(12, 3)?;
    let mut plan = EqualSpacing::new(3)?;
    let mut line = Line { awake: true };
    let mut place = Readout::new();
    let before = look_at(&place);
    match run(&diagonal, &mut plan, 300, 7, &mut line, &mut place) {
        Ok(_) => return Err(Fail::new("the line was awake")),
        Err(denial) => assert_eq!(rt; denial.number(), 16),
    }
    assert_eq!(rt; line.awake, true);
    assert_eq!(rt; look_at(&place), before);
    assert!(rt; same_points(place.log().points(), &[(0, 0), (1, 0)]));
    Ok(())
}

#[test]
fn a_budget_above_the_inner_arguments_is_denied(rt: HostRuntime) -> Result<(), Fail> {
    let diagonal = Diagonal::new(12, 3)?;
    let mut plan = EqualSpacing::new(3)?;
    let mut line = Line::asleep();
    let mut place = Readout::new();
    let before = look_at(&place);
    match run(&diagonal, &mut plan, 12, 7, &mut line, &mut place) {
        Ok(_) => return Err(Fail::new("the budget was too large")),
        Err(denial) => assert_eq!(rt; denial.number(), 3),
    }
    assert_eq!(rt; line.awake, false);
    assert_eq!(rt; look_at(&place), before);
    assert!(rt; same_points(place.log().points(), &[(0, 0), (1, 0)]));
    Ok(())
}

// The width that each plan leaves with two questions on the table 0 0 0 0 9.
#[test]
fn the_rectangle_can_be_better(rt: HostRuntime) -> Result<(), Fail> {
    let mut table = TableLogger::new();
    table.fill(&[0, 0, 0, 0, 9])?;
    let mut spacing = EqualSpacing::new(2)?;
    let mut rectangle = WidestRectangle::new();
    let mut line = Line::asleep();
    let mut place = Readout::new();
    let first = run(&table, &mut spacing, 2, 7, &mut line, &mut place)?;
    let second = run(&table, &mut rectangle, 2, 7, &mut line, &mut place)?;
    assert_eq!(rt; first.high.saturating_sub(first.low), 9);
    assert_eq!(rt; second.high.saturating_sub(second.low), 0);
    Ok(())
}

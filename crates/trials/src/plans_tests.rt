// Plans: what they ask next.
use crate::looks::number;
use crate::tries::{Purpose, try_ask};
use plans::{EqualSpacing, Plan, WidestRectangle};
use readout::Readout;
use std::test::Fail;

#[test]
fn equal_spacing_asks_its_stops(rt: HostRuntime) -> Result<(), Fail> {
    let mut plan = EqualSpacing::new(2)?;
    let mut place = Readout::new();
    place.open(10, 0, 40, 3, 0)?;
    assert_eq!(rt; plan.next(place.log()), Some(3));
    try_ask(&mut place, 3, Purpose::Answer(12))?;
    assert_eq!(rt; plan.next(place.log()), Some(6));
    try_ask(&mut place, 6, Purpose::Answer(24))?;
    assert_eq!(rt; plan.next(place.log()), Some(1));
    Ok(())
}

#[test]
fn equal_spacing_is_for_at_most_254(rt: HostRuntime) {
    assert_eq!(rt;
        [
            number(EqualSpacing::new(254)),
            number(EqualSpacing::new(255)),
        ],
        [0, 3]
    );
}

#[test]
fn widest_rectangle_asks_in_the_widest_gap(rt: HostRuntime) -> Result<(), Fail> {
    let mut plan = WidestRectangle::new();
    let mut place = Readout::new();
    place.open(4, 0, 9, 3, 0)?;
    assert_eq!(rt; plan.next(place.log()), Some(2));
    try_ask(&mut place, 2, Purpose::Answer(1))?;
    assert_eq!(rt; plan.next(place.log()), Some(3));
    Ok(())
}

// A readout: openings, takes and answers, their denials in order, and that a denial changes nothing.
use crate::looks::{Look, look_at, number, same_points};
use crate::tries::{Purpose, look_around, second_take, try_ask};
use readout::Readout;
use std::test::Fail;

// A readout of span 12 from 0 to 36, with mark 7 and so many questions, of which one is answered: 18 at 6.
fn halved(budget: u32) -> Result<Readout, Fail> {
    let mut place = Readout::new();
    place.open(12, 0, 36, budget, 7)?;
    try_ask(&mut place, 6, Purpose::Answer(18))?;
    Ok(place)
}

// What it shows then, of 11 questions.
const HALVED: Look = Look {
    low: 144,
    high: 324,
    answers: 1,
    left: 10,
    mark: 7,
    waiting: None,
};

#[test]
fn one_answer_narrows(rt: HostRuntime) -> Result<(), Fail> {
    let place = halved(11)?;
    assert_eq!(rt; look_at(&place), HALVED);
    assert_eq!(rt; place.log().limits().width(), 180);
    assert!(rt; same_points(place.log().points(), &[(0, 0), (6, 18), (12, 36)]));
    Ok(())
}

#[test]
fn values_out_of_order_are_denied(rt: HostRuntime) -> Result<(), Fail> {
    let mut place = halved(11)?;
    assert_eq!(rt; number(try_ask(&mut place, 9, Purpose::Answer(17))), 9);
    assert_eq!(rt; number(try_ask(&mut place, 9, Purpose::Answer(37))), 9);
    let (before, after) = look_around(&mut place, 9, Purpose::Answer(37))?;
    assert_eq!(rt;
        before,
        Look {
            left: 9,
            waiting: Some(9),
            ..HALVED
        }
    );
    assert_eq!(rt; after, before);
    assert_eq!(rt; look_at(&place), HALVED);
    assert!(rt; same_points(place.log().points(), &[(0, 0), (6, 18), (12, 36)]));
    Ok(())
}

#[test]
fn lower_neighbour_is_accepted(rt: HostRuntime) -> Result<(), Fail> {
    let mut place = halved(11)?;
    try_ask(&mut place, 9, Purpose::Answer(18))?;
    assert_eq!(rt;
        look_at(&place),
        Look {
            high: 270,
            answers: 2,
            left: 9,
            ..HALVED
        }
    );
    assert!(rt; same_points(place.log().points(), &[(0, 0), (6, 18), (9, 18), (12, 36)]));
    Ok(())
}

#[test]
fn upper_neighbour_is_accepted(rt: HostRuntime) -> Result<(), Fail> {
    let mut place = halved(11)?;
    try_ask(&mut place, 9, Purpose::Answer(36))?;
    assert_eq!(rt;
        look_at(&place),
        Look {
            low: 198,
            answers: 2,
            left: 9,
            ..HALVED
        }
    );
    assert!(rt; same_points(place.log().points(), &[(0, 0), (6, 18), (9, 36), (12, 36)]));
    Ok(())
}

#[test]
fn budgets_end_below_the_span(rt: HostRuntime) {
    let mut place = Readout::new();
    let denials = [
        number(place.open(12, 0, 36, 11, 0)),
        number(place.open(12, 0, 36, 12, 0)),
        number(place.open(1, 0, 0, 0, 0)),
        number(place.open(1, 0, 0, 1, 0)),
        number(place.open(1_000_000, 0, 9, 254, 0)),
        number(place.open(1_000_000, 0, 9, 255, 0)),
    ];
    assert_eq!(rt; denials, [0, 3, 0, 3, 0, 3]);
}

#[test]
fn openings_are_denied_in_order(rt: HostRuntime) -> Result<(), Fail> {
    let mut place = halved(11)?;
    let denials = [
        number(place.open(0, 0, 9, 0, 1)),
        number(place.open(1_000_001, 0, 9, 0, 1)),
        number(place.open(0, 5, 4, 300, 1)),
        number(place.open(12, 5, 4, 0, 1)),
        number(place.open(12, 5, 4, 300, 1)),
        number(place.open(12, 4, 5, 300, 1)),
    ];
    assert_eq!(rt; denials, [1, 1, 1, 2, 2, 3]);
    assert_eq!(rt; look_at(&place), HALVED);
    assert!(rt; same_points(place.log().points(), &[(0, 0), (6, 18), (12, 36)]));
    Ok(())
}

#[test]
fn takes_are_denied_in_order(rt: HostRuntime) -> Result<(), Fail> {
    let mut place = halved(1)?;
    let denials = [
        number(try_ask(&mut place, 0, Purpose::Withdraw)),
        number(try_ask(&mut place, 12, Purpose::Withdraw)),
        number(try_ask(&mut place, 13, Purpose::Withdraw)),
        number(try_ask(&mut place, 6, Purpose::Withdraw)),
        number(try_ask(&mut place, 3, Purpose::Withdraw)),
    ];
    assert_eq!(rt; denials, [5, 5, 5, 6, 7]);
    assert_eq!(rt; look_at(&place), Look { left: 0, ..HALVED });
    Ok(())
}

#[test]
fn second_ticket_is_denied_first(rt: HostRuntime) -> Result<(), Fail> {
    let mut place = halved(2)?;
    let denials = [
        second_take(&mut place, 3, 4).number(),
        second_take(&mut place, 3, 3).number(),
        second_take(&mut place, 3, 6).number(),
        second_take(&mut place, 3, 0).number(),
    ];
    assert_eq!(rt; denials, [4, 4, 4, 4]);
    assert_eq!(rt; look_at(&place), Look { left: 1, ..HALVED });
    Ok(())
}

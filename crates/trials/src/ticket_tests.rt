// Tickets at a readout that did not give them, and what is counted over a row of calls.
use crate::looks::{Look, adds_up, look_at, number};
use crate::tries::{Purpose, look_around, second_take, try_ask, try_crossed, try_foreign};
use readout::Readout;
use std::test::Fail;

// A readout of span 12 from 0 to 36, with this mark and 11 questions.
fn opened(mark: u16) -> Result<Readout, Fail> {
    let mut place = Readout::new();
    place.open(12, 0, 36, 11, mark)?;
    Ok(place)
}

#[test]
fn resting_readout_denies_tickets(rt: HostRuntime) -> Result<(), Fail> {
    let mut owner = opened(1)?;
    let mut other = opened(1)?;
    let before = look_at(&owner);
    let denials = [
        number(try_foreign(&mut owner, 6, &mut other, Purpose::Answer(18))),
        number(try_foreign(&mut owner, 6, &mut other, Purpose::Answer(99))),
        number(try_foreign(&mut owner, 6, &mut other, Purpose::Withdraw)),
    ];
    assert_eq!(rt; denials, [8, 8, 8]);
    assert_eq!(rt; look_at(&owner), before);
    assert_eq!(rt; look_at(&other), before);
    Ok(())
}

#[test]
fn ticket_of_another_mark_is_denied(rt: HostRuntime) -> Result<(), Fail> {
    let mut owner = opened(1)?;
    let mut other = opened(2)?;
    let before = look_at(&other);
    let denials = [
        number(try_crossed(&mut owner, 6, &mut other, 6, Purpose::Answer(18))),
        number(try_crossed(&mut owner, 6, &mut other, 6, Purpose::Answer(99))),
        number(try_crossed(&mut owner, 6, &mut other, 6, Purpose::Withdraw)),
    ];
    assert_eq!(rt; denials, [8, 8, 8]);
    assert_eq!(rt; look_at(&owner), Look { mark: 1, ..before });
    assert_eq!(rt; look_at(&other), before);
    Ok(())
}

// Tickets of one mark and one argument are alike, whoever gave them.
#[test]
fn ticket_of_the_same_mark_is_accepted(rt: HostRuntime) -> Result<(), Fail> {
    let mut owner = opened(2)?;
    let mut other = opened(2)?;
    let before = look_at(&owner);
    let denials = [
        number(try_crossed(&mut owner, 3, &mut other, 6, Purpose::Answer(9))),
        number(try_crossed(&mut owner, 6, &mut other, 6, Purpose::Answer(99))),
        number(try_crossed(&mut owner, 6, &mut other, 6, Purpose::Answer(18))),
    ];
    assert_eq!(rt; denials, [8, 9, 0]);
    assert_eq!(rt; look_at(&owner), before);
    assert_eq!(rt;
        look_at(&other),
        Look {
            low: 144,
            high: 324,
            answers: 1,
            left: 10,
            ..before
        }
    );
    Ok(())
}

// After every call, denied ones included: the answers, the questions left and the ticket out are 11 together.
#[test]
fn every_step_adds_up(rt: HostRuntime) -> Result<(), Fail> {
    let mut place = opened(1)?;
    assert!(rt; adds_up(look_at(&place), 11));
    for (x, purpose) in [
        (6, Purpose::Answer(18)),
        (9, Purpose::Answer(17)),
        (9, Purpose::Withdraw),
        (9, Purpose::Answer(27)),
        (1, Purpose::Answer(18)),
    ] {
        let (before, after) = look_around(&mut place, x, purpose)?;
        assert!(rt; adds_up(before, 11) && adds_up(after, 11) && adds_up(look_at(&place), 11));
        assert_eq!(rt; number(try_ask(&mut place, 6, purpose)), 6);
        assert_eq!(rt; second_take(&mut place, 2, 3).number(), 4);
        assert!(rt; adds_up(look_at(&place), 11));
    }
    assert_eq!(rt; place.limits().answers, 3);
    Ok(())
}

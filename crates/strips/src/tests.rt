// Small strips, filled, denied and counted at the edges of their words.
use crate::strip::DoorStrip;
use denials::Denial;
use loggers::Logger;
use std::test::Fail;

#[test]
fn edges_of_words(rt: HostRuntime) -> Result<(), Fail> {
    let words = [0x8000_0000_0000_0001, 0x8000_0000_0000_0001];
    let mut place = DoorStrip::new();
    place.fill(&words, 128)?;
    assert!(rt; place.count(0) == Some(0));
    assert!(rt; place.count(1) == Some(1));
    assert!(rt; place.count(63) == Some(1));
    assert!(rt; place.count(64) == Some(2));
    assert!(rt; place.count(65) == Some(3));
    assert!(rt; place.count(128) == Some(4));
    assert!(rt; place.count(129) == None);
    Ok(())
}

#[test]
fn denials_in_order(rt: HostRuntime) {
    let mut place = DoorStrip::new();
    assert!(rt; place.fill(&[], 0) == Err(Denial::Span));
    assert!(rt; place.fill(&[], 1_000_001) == Err(Denial::Span));
    assert!(rt; place.fill(&[7], 65) == Err(Denial::Readings));
    assert!(rt; place.span() == 1);
    assert!(rt; place.last() == 0);
}

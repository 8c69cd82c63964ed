// Both plans on every kind of logger: what they ask and find, beside figures worked out by another program.
use crate::runs::run_both;
use crate::samples::{climate, ends, supply};
use counters::Counter;
use loggers::{Diagonal, Logger, TableLogger};
use std::test::Fail;
use strips::DoorStrip;
use windows::{Turned, Window};

#[test]
fn table(rt: HostRuntime) -> Result<(), Fail> {
    let mut place = TableLogger::new();
    place.fill(&[2, 3, 3, 7, 11, 11, 12, 20, 31])?;
    assert_eq!(rt; run_both(&place, 3)?.sums(), [[3, 87, 116], [3, 87, 116]]);
    let window = Window::new(place, 2, 7);
    assert_eq!(rt; run_both(&window, 3)?.sums(), [[3, 63, 72], [3, 60, 68]]);
    Ok(())
}

#[test]
fn turned_table(rt: HostRuntime) -> Result<(), Fail> {
    let mut place = TableLogger::new();
    place.fill(&[2, 3, 3, 7, 11, 11, 12, 20, 31])?;
    let turned = Turned::new(place);
    assert_eq!(rt; [turned.count(1), turned.count(8)], [Some(11), Some(29)]);
    assert_eq!(rt;
        run_both(&turned, 3)?.sums(),
        [[3, 163, 192], [3, 163, 192]]
    );
    Ok(())
}

#[test]
fn diagonal(rt: HostRuntime) -> Result<(), Fail> {
    let diagonal = Diagonal::new(12, 3)?;
    assert_eq!(rt;
        run_both(&diagonal, 4)?.sums(),
        [[4, 207, 261], [4, 204, 264]]
    );
    Ok(())
}

#[test]
fn climate_counter(rt: HostRuntime) -> Result<(), Fail> {
    let readings = [
        climate(-4_001),
        climate(-4_000),
        climate(-3_998),
        climate(-3_995),
        climate(-3_995),
        climate(-3_991),
        climate(-3_989),
    ];
    let mut place = Counter::new();
    place.fill(&readings, 11)?;
    assert_eq!(rt; [place.count(4), place.count(5)], [Some(3), Some(5)]);
    assert_eq!(rt; run_both(&place, 3)?.sums(), [[3, 50, 59], [3, 50, 59]]);
    let window = Window::new(Turned::new(place), 1, 9);
    assert_eq!(rt; [window.count(0), window.count(6)], [Some(1), Some(4)]);
    assert_eq!(rt; run_both(&window, 3)?.sums(), [[3, 22, 25], [3, 22, 25]]);
    Ok(())
}

#[test]
fn supply_counter(rt: HostRuntime) -> Result<(), Fail> {
    let readings = [
        supply(3),
        supply(0),
        supply(3),
        supply(10),
        supply(7),
        supply(9),
        supply(14),
    ];
    let mut place = Counter::new();
    place.fill(&readings, 10)?;
    assert_eq!(rt; ends(&place), [10, 1, 6]);
    assert_eq!(rt; run_both(&place, 3)?.sums(), [[3, 29, 38], [3, 29, 38]]);
    Ok(())
}

#[test]
fn strip_of_the_word_11(rt: HostRuntime) -> Result<(), Fail> {
    let mut place = DoorStrip::new();
    place.fill(&[11], 4)?;
    assert_eq!(rt;
        [place.count(2), place.count(3), place.count(4)],
        [Some(2), Some(2), Some(3)]
    );
    assert_eq!(rt; run_both(&place, 2)?.sums(), [[2, 8, 9], [2, 8, 9]]);
    Ok(())
}

#[test]
fn door_strip(rt: HostRuntime) -> Result<(), Fail> {
    let words = [0xf0f0, 0x8000_0000_0000_0001, 7];
    let mut place = DoorStrip::new();
    place.fill(&words, 130)?;
    assert_eq!(rt;
        run_both(&place, 5)?.sums(),
        [[5, 949, 1_193], [5, 1_021, 1_205]]
    );
    let turned = Turned::new(Window::new(place, 60, 130));
    assert_eq!(rt; [turned.count(3), turned.count(70)], [Some(3), Some(4)]);
    assert_eq!(rt;
        run_both(&turned, 4)?.sums(),
        [[4, 172, 224], [4, 190, 228]]
    );
    Ok(())
}

// Small rows of readings, counted and denied.
use crate::counter::Counter;
use crate::levels::{ClimateReading, SupplyReading};
use denials::Denial;
use loggers::Logger;
use std::test::Fail;

#[test]
fn climate_is_counted(rt: HostRuntime) -> Result<(), Fail> {
    let readings = [
        ClimateReading {
            minute: 0,
            temperature: -4_001,
        },
        ClimateReading {
            minute: 1,
            temperature: -3_999,
        },
        ClimateReading {
            minute: 2,
            temperature: 2_150,
        },
    ];
    let mut place = Counter::new();
    place.fill(&readings, 10_000)?;
    assert!(rt; place.count(0) == Some(1));
    assert!(rt; place.count(1) == Some(2));
    assert!(rt; place.last() == 3);
    assert!(rt; place.count(10_001) == None);
    Ok(())
}

#[test]
fn supply_is_counted(rt: HostRuntime) -> Result<(), Fail> {
    let readings = [
        SupplyReading { millivolts: 3_300 },
        SupplyReading { millivolts: 2_900 },
    ];
    let mut place = Counter::new();
    place.fill(&readings, 3_000)?;
    assert!(rt; place.first() == 0);
    assert!(rt; place.last() == 1);
    Ok(())
}

#[test]
fn span_is_denied(rt: HostRuntime) {
    let readings = [SupplyReading { millivolts: 3_300 }];
    let mut place = Counter::new();
    assert!(rt; place.fill(&readings, 0) == Err(Denial::Span));
    assert!(rt; place.span() == 1);
    assert!(rt; place.last() == 0);
}

// Small rows of readings, certified and denied.
use crate::certifying::certify;
use counters::{ClimateReading, SupplyReading};
use denials::Denial;
use std::test::Fail;

// Certificates of rows in which every argument is asked.
#[test]
fn climate_is_certified(rt: HostRuntime) -> Result<(), Fail> {
    let readings = [
        ClimateReading {
            minute: 0,
            temperature: -4_001,
        },
        ClimateReading {
            minute: 1,
            temperature: -4_000,
        },
        ClimateReading {
            minute: 2,
            temperature: -3_998,
        },
        ClimateReading {
            minute: 3,
            temperature: 1,
        },
    ];
    let Ok(certificate) = certify(&readings, 3, 2) else {
        return Err(Fail::new("denied"));
    };
    assert!(rt; certificate.counted == 3 && certificate.out_of_range == 1);
    assert!(rt; certificate.total.low == 2 && certificate.total.high == 2);
    assert!(rt; certificate.width == 0 && certificate.least == 0);
    match certificate.mean {
        Some(mean) => {
            assert!(rt; mean.low == -4_000 && mean.high == -3_999 && mean.questions == 2);
            Ok(())
        },
        None => Err(Fail::new("no mean")),
    }
}

#[test]
fn no_reading_has_no_mean(rt: HostRuntime) -> Result<(), Fail> {
    let readings = [SupplyReading { millivolts: 5 }];
    let Ok(certificate) = certify(&readings, 4, 0) else {
        return Err(Fail::new("denied"));
    };
    assert!(rt; certificate.counted == 0 && certificate.out_of_range == 1);
    assert!(rt; certificate.mean.is_none());
    Ok(())
}

// The first check that fails is told.
#[test]
fn bad_questions_are_denied(rt: HostRuntime) {
    let readings = [SupplyReading { millivolts: 5 }];
    assert!(rt; matches!(certify(&readings, 0, 1), Err(Denial::Span)));
    assert!(rt; matches!(certify(&readings, 1_000_001, 255), Err(Denial::Span)));
    assert!(rt; matches!(certify(&readings, 1_000, 255), Err(Denial::Budget)));
    assert!(rt; matches!(certify(&readings, 4, 4), Err(Denial::Budget)));
}

#[test]
fn too_many_readings_are_denied(rt: HostRuntime) -> Result<(), Fail> {
    let mut readings = Vec::new(rt.alloc());
    for _ in 0..1_000_000 {
        readings.push(SupplyReading { millivolts: 5 })?;
    }
    assert!(rt; certify(readings.as_slice(), 8, 0).is_ok());
    readings.push(SupplyReading { millivolts: 5 })?;
    assert!(rt; matches!(certify(readings.as_slice(), 4, 4), Err(Denial::Readings)));
    Ok(())
}

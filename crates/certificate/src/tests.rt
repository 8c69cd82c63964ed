// Lines that are refused, amounts in their units, and jobs.
use crate::decimals::Decimal;
use crate::faults::BadLines;
use crate::jobs::{Job, Kind, Misuse, read_job};
use crate::readings::Readings;
use crate::sheets::Sheet;
use counters::{ClimateReading, SupplyReading};
use records::{Fault, Line, Refusal, Written, read_line};
use std::process::Abort;
use std::test::Fail;

// Whether hundredths of a degree are shown so.
fn degrees(rt: &(impl Abort + AllocGlobal), parts: i64, text: &str) -> Result<(), Fail> {
    let shown = Decimal::<2> { parts }.to_string(rt.alloc())?;
    assert!(rt; shown.as_str() == text, "{}", text);
    Ok(())
}

// Whether millivolts are shown so.
fn volts(rt: &(impl Abort + AllocGlobal), parts: i64, text: &str) -> Result<(), Fail> {
    let shown = Decimal::<3> { parts }.to_string(rt.alloc())?;
    assert!(rt; shown.as_str() == text, "{}", text);
    Ok(())
}

#[test]
fn amounts_are_shown(rt: HostRuntime) -> Result<(), Fail> {
    degrees(&rt, 0, "0.00")?;
    degrees(&rt, -5, "−0.05")?;
    degrees(&rt, -1_234, "−12.34")?;
    degrees(&rt, 10_000, "100.00")?;
    volts(&rt, 3_307, "3.307")?;
    volts(&rt, 7, "0.007")
}

// Whether a first line of the climate has this fault.
fn fault(rt: &impl Abort, text: &str, fault: Fault) -> Result<(), Fail> {
    match read_line::<ClimateReading>(text, true) {
        Err(found) => {
            assert_eq!(rt; found, fault, "{}", text);
            Ok(())
        },
        _ => Err(Fail::new("no fault")),
    }
}

#[test]
fn bad_lines_are_refused(rt: HostRuntime) -> Result<(), Fail> {
    fault(&rt, "12", Fault::NoComma)?;
    fault(&rt, "12;5", Fault::NoComma)?;
    fault(&rt, "-1,5", Fault::Minute)?;
    fault(&rt, "4294967296,5", Fault::Minute)?;
    fault(&rt, "12,32768", Fault::Temperature)?;
    fault(&rt, "12,21.5", Fault::Temperature)?;
    fault(&rt, "12,5,6", Fault::Temperature)?;
    fault(&rt, "12,", Fault::Temperature)?;
    match read_line::<SupplyReading>("65536", true) {
        Err(found) => {
            assert_eq!(rt; found, Fault::Millivolts);
            Ok(())
        },
        _ => Err(Fail::new("no fault")),
    }
}

#[test]
fn lines_are_read(rt: HostRuntime) -> Result<(), Fail> {
    match read_line::<ClimateReading>(" 4294967295 , -32768\r", true) {
        Ok(Line::Reading(reading)) => {
            assert!(rt; reading.minute == 4_294_967_295 && reading.temperature == -32_768)
        }
        _ => return Err(Fail::new("no reading")),
    }
    assert!(rt; matches!(read_line::<ClimateReading>(" \r", true), Ok(Line::Blank)));
    assert!(rt;
        matches!(
            read_line::<ClimateReading>("minute,t", true),
            Ok(Line::Header)
        )
    );
    assert!(rt;
        matches!(
            read_line::<ClimateReading>("minute,t", false),
            Err(Fault::Minute)
        )
    );
    Ok(())
}

#[test]
fn bad_batch_is_not_certified(rt: HostRuntime) -> Result<(), Fail> {
    let readings = Readings {
        text: "mV\n3300\n\nabc\n",
        first: 2,
    };
    let batch = readings.gather::<SupplyReading>(rt.alloc())?;
    assert!(rt; matches!(batch.report(4_000, 3), Err(Refusal::BadLines)));
    let lines = BadLines {
        lines: batch.bad_lines(),
    };
    let shown = lines.to_string(rt.alloc())?;
    assert!(rt;
        shown.as_str()
            == "line 5: the millivolts are no whole number up to 65535\nnothing is certified"
    );
    Ok(())
}

#[test]
fn no_reading_is_said_plainly(rt: HostRuntime) -> Result<(), Fail> {
    let readings = Readings { text: "", first: 1 };
    let batch = readings.gather::<SupplyReading>(rt.alloc())?;
    let Ok(report) = batch.report(4_000, 20) else {
        return Err(Fail::new("refused"));
    };
    let sheet = Sheet::<SupplyReading>::new(report);
    let shown = sheet.to_string(rt.alloc())?;
    assert!(rt;
        shown.as_str()
            == "Certificate of supply readings\nreadings counted: 0\nreadings out of range: 0 (above 4.000 V, not counted)\nspan: 4000 (0.000 V to 4.000 V)\nquestions: 20 (equal spacing)\ntotal of levels: 0 to 0\nmean: no reading was counted, so there is no mean\nwidth of the total: 0 (no plan with as many questions can promise less than 0)"
    );
    Ok(())
}

#[test]
fn jobs_are_read(rt: HostRuntime) {
    let job = Job {
        kind: Kind::Climate,
        span: 8_000,
        questions: 40,
    };
    assert_eq!(rt; read_job(&["climate", "8000", "40"]), Ok(job));
    assert_eq!(rt; read_job(&["climate", "8000"]), Err(Misuse::Words));
    assert_eq!(rt;
        read_job(&["climate", "8000", "40", "1"]),
        Err(Misuse::Words)
    );
    assert_eq!(rt; read_job(&["Climate", "8000", "40"]), Err(Misuse::Kind));
    assert_eq!(rt; read_job(&["supply", "-1", "40"]), Err(Misuse::Span));
    assert_eq!(rt;
        read_job(&["supply", "8000", "4294967296"]),
        Err(Misuse::Questions)
    );
}

// The edges of counters and strips: what they are denied for, and what they count at their ends.
use crate::runs::run_both;
use crate::samples::{climate, ends, supply};
use counters::{Counter, Level, SupplyReading};
use loggers::Logger;
use std::test::Fail;
use strips::DoorStrip;
use trials::number;

#[test]
fn strips_count_at_the_edges_of_words(rt: HostRuntime) -> Result<(), Fail> {
    let words = [0xf0f0, 0x8000_0000_0000_0001, 7];
    let mut place = DoorStrip::new();
    place.fill(&words, 130)?;
    assert_eq!(rt;
        [place.count(0), place.count(63), place.count(64)],
        [Some(0), Some(8), Some(8)]
    );
    assert_eq!(rt;
        [place.count(65), place.count(130), place.count(131)],
        [Some(9), Some(12), None]
    );
    Ok(())
}

#[test]
fn strips_have_a_bit_for_each_step(rt: HostRuntime) {
    let one = [0xf0f0];
    let two = [0xf0f0, 0x8000_0000_0000_0001];
    let mut place = DoorStrip::new();
    assert_eq!(rt; number(place.fill(&two, 128)), 0);
    assert_eq!(rt; ends(&place), [128, 0, 10]);
    assert_eq!(rt;
        [number(place.fill(&two, 129)), number(place.fill(&one, 65))],
        [15, 15]
    );
    assert_eq!(rt; ends(&place), [128, 0, 10]);
    assert_eq!(rt; number(place.fill(&one, 64)), 0);
    assert_eq!(rt; ends(&place), [64, 0, 8]);
    assert_eq!(rt;
        [place.count(63), place.count(64), place.count(65)],
        [Some(8), Some(8), None]
    );
}

#[test]
fn spans_are_from_1_to_1_000_000(rt: HostRuntime) {
    let readings = [supply(3_300), supply(1)];
    let mut place = Counter::new();
    assert_eq!(rt;
        [
            number(place.fill(&readings, 1)),
            number(place.fill(&readings, 0)),
        ],
        [0, 1]
    );
    assert_eq!(rt; ends(&place), [1, 0, 1]);
    assert_eq!(rt;
        [
            number(place.fill(&readings, 1_000_000)),
            number(place.fill(&readings, 1_000_001)),
        ],
        [0, 1]
    );
    assert_eq!(rt; ends(&place), [1_000_000, 0, 2]);
    let words = [7; 2];
    let mut strip = DoorStrip::new();
    assert_eq!(rt;
        [number(strip.fill(&words, 1)), number(strip.fill(&words, 0))],
        [0, 1]
    );
    assert_eq!(rt;
        [
            number(strip.fill(&words, 1_000_000)),
            number(strip.fill(&words, 1_000_001)),
        ],
        [15, 1]
    );
    assert_eq!(rt; ends(&strip), [1, 0, 1]);
}

#[test]
fn levels_of_temperatures(rt: HostRuntime) {
    assert_eq!(rt; [climate(-32_768).level(), climate(-4_001).level()], [0, 0]);
    assert_eq!(rt;
        [climate(-4_000).level(), climate(32_767).level()],
        [0, 36_767]
    );
}

#[test]
fn coldest_and_hottest(rt: HostRuntime) {
    let readings = [
        climate(-32_768),
        climate(-4_001),
        climate(-4_000),
        climate(32_767),
    ];
    let mut place = Counter::new();
    assert_eq!(rt; number(place.fill(&readings, 36_766)), 0);
    assert_eq!(rt; ends(&place), [36_766, 3, 3]);
    assert_eq!(rt; number(place.fill(&readings, 36_767)), 0);
    assert_eq!(rt; ends(&place), [36_767, 3, 4]);
}

#[test]
fn no_readings(rt: HostRuntime) -> Result<(), Fail> {
    let readings: [SupplyReading; 0] = [];
    let mut place = Counter::new();
    place.fill(&readings, 10)?;
    assert_eq!(rt; ends(&place), [10, 0, 0]);
    let both = run_both(&place, 4)?;
    assert_eq!(rt; both.sums(), [[4, 0, 0], [4, 0, 0]]);
    assert_eq!(rt; [both.spacing.levels.high, both.widest.levels.high], [0, 0]);
    Ok(())
}

// The levels are 0, 0, 2, 5, 5, 9 and 11, in all 32.
#[test]
fn total_of_levels(rt: HostRuntime) -> Result<(), Fail> {
    let readings = [
        climate(-4_001),
        climate(-4_000),
        climate(-3_998),
        climate(-3_995),
        climate(-3_995),
        climate(-3_991),
        climate(-3_989),
    ];
    let mut place = Counter::new();
    place.fill(&readings, 11)?;
    let some = run_both(&place, 3)?.spacing.levels;
    assert_eq!(rt; [some.low, some.high], [25, 34]);
    let all = run_both(&place, 10)?;
    assert_eq!(rt; [all.spacing.levels.low, all.spacing.levels.high], [32, 32]);
    assert_eq!(rt; [all.widest.levels.low, all.widest.levels.high], [32, 32]);
    assert_eq!(rt; number(run_both(&place, 11)), 3);
    Ok(())
}

// The score of a plan, the rows that it writes, and what it is denied for.
use bench::score;
use denials::Denial;
use plans::EqualSpacing;
use std::process::Abort;
use std::test::Fail;

#[test]
fn spacing_meets_the_least_width(rt: HostRuntime) -> Result<(), Fail> {
    let mut plan = EqualSpacing::new(3)?;
    let mut low = [7u32; 15];
    let mut high = [7u32; 15];
    let widths = score(&mut plan, 12, 3, 3, &mut low, &mut high)?;
    assert_eq!(rt; widths.width, 72);
    assert_eq!(rt; widths.least, 72);
    assert_eq!(rt; low, [0, 0, 0, 9, 9, 9, 18, 18, 18, 27, 27, 27, 36, 7, 7]);
    assert_eq!(rt;
        high,
        [0, 9, 9, 9, 18, 18, 18, 27, 27, 27, 36, 36, 36, 7, 7]
    );
    Ok(())
}

fn denied(
    rt: &impl Abort,
    span: u32,
    rise: u32,
    budget: u32,
    low_len: usize,
    high_len: usize,
) -> Result<Denial, Fail> {
    let mut plan = EqualSpacing::new(3)?;
    let mut low = [7u32; 13];
    let mut high = [7u32; 13];
    if low_len > 13 || high_len > 13 {
        return Err(Fail::new("a row of at most 13 places"));
    }
    match score(
        &mut plan,
        span,
        rise,
        budget,
        &mut low[0..low_len],
        &mut high[0..high_len],
    ) {
        Ok(_) => Err(Fail::new("the score was accepted")),
        Err(denial) => {
            assert_eq!(rt; low, [7u32; 13]);
            assert_eq!(rt; high, [7u32; 13]);
            Ok(denial)
        }
    }
}

#[test]
fn denials_come_in_their_order(rt: HostRuntime) -> Result<(), Fail> {
    assert_eq!(rt; denied(&rt, 0, 0, 300, 0, 0)?, Denial::Span);
    assert_eq!(rt; denied(&rt, 12, 0, 300, 0, 0)?, Denial::Rise);
    assert_eq!(rt; denied(&rt, 1000000, 4295, 3, 13, 13)?, Denial::Rise);
    assert_eq!(rt; denied(&rt, 12, 3, 12, 0, 0)?, Denial::Budget);
    assert_eq!(rt; denied(&rt, 12, 3, 3, 12, 13)?, Denial::Short(13));
    assert_eq!(rt; denied(&rt, 12, 3, 3, 13, 12)?, Denial::Short(13));
    Ok(())
}

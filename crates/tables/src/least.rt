// The least width, which no plan of asking can undercut on the diagonal.
ghost use Rattle.std.specs.Prelude.{◌≡◌};
ghost use Rattle.tables.specs.Least.{least_width};

// The least width of any log with `answers` points between its ends, on the diagonal of rise 1.
pub fn least_width(span: u32, answers: u32) -> u64
    ensures { result ≡ least_width span answers }
{
    let gaps = u64::from(answers) + 1;
    let shorter = u64::from(span) / gaps;
    let longer_gaps = u64::from(span) % gaps;
    // a gap of length l adds l * (l - 1): each gap is `shorter` long, or longer by one
    longer_gaps * ((shorter + 1) * shorter)
        + (gaps - longer_gaps) * (shorter * shorter.saturating_sub(1))
}

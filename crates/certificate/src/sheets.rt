// The certificate of readings, as it is filed.
ghost use Rattle.std.specs.Prelude.{◌≡◌, Some};
ghost use Rattle.std.specs.Fmt.{DisplaysOnOk};
ghost use Rattle.certificate.specs.Sheets.{counts_say, low_says, span_says, mean_says, limits_say, width_says, sheet_says};

use super::units::{Amount, Certified};
use certificates::Mean;
use records::Report;
use std::fmt;
use std::marker::PhantomData;

// The report on readings of a kind.
#[derive(Clone, Copy)]
pub struct Sheet<T> {
    pub report: Report,
    pub kind: PhantomData<T>,
}

impl<T: Certified> fmt::Display for Sheet<T> {
    ghost output = { λ sheet. Some (sheet_says T.KIND T.shown T.OwnUnit.zero sheet.report) };

    fn fmt<W: fmt::Write>(&self, f: &mut fmt::Formatter<W>) -> fmt::Result {
        self.write_counts(f)?;
        self.write_low(f)?;
        self.write_span(f)?;
        self.write_limits(f)?;
        self.write_width(f)
    }
}

impl<T: Certified> Sheet<T> {
    // The sheet of a report.
    pub fn new(report: Report) -> Sheet<T>
        ensures { result.report ≡ report }
    {
        Sheet {
            report,
            kind: PhantomData,
        }
    }

    // How many readings were counted, and how many lie above the span.
    fn write_counts<W: fmt::Write>(&self, f: &mut fmt::Formatter<W>) -> fmt::Result
        ensures { DisplaysOnOk W.write_str_gives f.old result (Some (counts_say T.KIND T.shown T.OwnUnit.zero self.now.report.certificate)) f.new }
    {
        let kind = T::KIND;
        let counted = self.report.certificate.counted;
        let out_of_range = self.report.certificate.out_of_range;
        let highest = Amount::<T>::of_level(self.report.certificate.span);
        writeln!(f, "Certificate of {kind} readings")?;
        writeln!(f, "readings counted: {counted}")?;
        writeln!(
            f,
            "readings out of range: {out_of_range} (above {highest}, not counted)"
        )
    }

    // How many lie below the reading of level 0, where some do.
    fn write_low<W: fmt::Write>(&self, f: &mut fmt::Formatter<W>) -> fmt::Result
        ensures { DisplaysOnOk W.write_str_gives f.old result (Some (low_says T.shown T.OwnUnit.zero self.now.report.low)) f.new }
    {
        let low = self.report.low;
        if low == 0 {
            return Ok(());
        }
        let lowest = Amount::<T>::of_level(0);
        writeln!(f, "readings below {lowest}: {low} (counted as {lowest})")
    }

    // The span, and how often the counter was asked.
    fn write_span<W: fmt::Write>(&self, f: &mut fmt::Formatter<W>) -> fmt::Result
        ensures { DisplaysOnOk W.write_str_gives f.old result (Some (span_says T.shown T.OwnUnit.zero self.now.report.certificate)) f.new }
    {
        let span = self.report.certificate.span;
        let questions = self.report.certificate.questions;
        let lowest = Amount::<T>::of_level(0);
        let highest = Amount::<T>::of_level(span);
        writeln!(f, "span: {span} ({lowest} to {highest})")?;
        writeln!(f, "questions: {questions} (equal spacing)")
    }

    // The limits of the total and of the mean.
    fn write_limits<W: fmt::Write>(&self, f: &mut fmt::Formatter<W>) -> fmt::Result
        ensures { DisplaysOnOk W.write_str_gives f.old result (Some (limits_say T.shown self.now.report.certificate)) f.new }
    {
        let low = self.report.certificate.total.low;
        let high = self.report.certificate.total.high;
        writeln!(f, "total of levels: {low} to {high}")?;
        write_mean::<T, W>(self.report.certificate.mean, f)
    }

    // The width, and the least that any plan could promise.
    fn write_width<W: fmt::Write>(&self, f: &mut fmt::Formatter<W>) -> fmt::Result
        ensures { DisplaysOnOk W.write_str_gives f.old result (Some (width_says self.now.report.certificate)) f.new }
    {
        let width = self.report.certificate.width;
        let least = self.report.certificate.least;
        write!(
            f,
            "width of the total: {width} (no plan with as many questions can promise less than {least})"
        )
    }
}

// The limits of the mean with their unit, where readings were counted.
fn write_mean<T: Certified, W: fmt::Write>(
    mean: Option<Mean>,
    f: &mut fmt::Formatter<W>,
) -> fmt::Result
    ensures { DisplaysOnOk W.write_str_gives f.old result (Some (mean_says T.shown mean)) f.new }
{
    let Some(mean) = mean else {
        return writeln!(f, "mean: no reading was counted, so there is no mean");
    };
    let low = Amount::<T>::new(mean.low);
    let high = Amount::<T>::new(mean.high);
    writeln!(f, "mean: {low} to {high}")
}

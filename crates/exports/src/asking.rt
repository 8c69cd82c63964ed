// Answers taken into a readout, one after the other, with the width after each.
ghost use Rattle.std.specs.Prelude.{◌≡◌, slice_set};
ghost use Rattle.std.specs.Option.{option_map};
ghost use Rattle.denials.specs.Checks.{Decided};
ghost use Rattle.denials.specs.Told.{told};
ghost use Rattle.readout.specs.Calls.{opened, open_denied};
ghost use Rattle.readout.specs.Views.{view};
ghost use Rattle.tables.specs.Log.{width};
ghost use Rattle.exports.specs.Asking.{asked, asked_all, summed};
ghost use Rattle.exports.specs.Replies.{Replied};

use super::answers::Answer;
use super::replies::{Reply, tell};
use denials::Denial;
use readout::Readout;
use trials::{Purpose, try_ask};

// Opens a readout, takes the answers into it, and writes the width after each into a row as far as that reaches.
#[unsafe(no_mangle)]
pub extern "C" fn sealed_answers(
    span: u32,
    first: u32,
    last: u32,
    budget: u32,
    answers: &[Answer],
    widths: &mut [u64],
) -> Reply
    ensures { Replied (option_map told (open_denied span first last budget)) result (λ s. (s ≡ summed (asked_all (opened span first last budget 0, widths.old) 0 answers.now).0) × (widths.new ≡ (asked_all (opened span first last budget 0, widths.old) 0 answers.now).1)) (widths.new ≡ widths.old) }
{
    tell(take_all(span, first, last, budget, answers, widths))
}

// The limits that the answers lead to.
fn take_all(
    span: u32,
    first: u32,
    last: u32,
    budget: u32,
    answers: &[Answer],
    widths: &mut [u64],
) -> Result<Reply, Denial>
    ensures { Decided told (option_map told (open_denied span first last budget)) result (λ s. (s ≡ summed (asked_all (opened span first last budget 0, widths.old) 0 answers.now).0) × (widths.new ≡ (asked_all (opened span first last budget 0, widths.old) 0 answers.now).1)) (widths.new ≡ widths.old) }
{
    let mut place = Readout::new();
    place.open(span, first, last, budget, 0)?;
    ask_all(&mut place, answers, widths);
    let summary = place.limits();
    Ok(Reply {
        denial: 0,
        answers: summary.answers,
        low: summary.low,
        high: summary.high,
    })
}

// Takes the answers into a readout in their order, by place: one past the end of the widths is taken in too.
fn ask_all(place: &mut Readout, answers: &[Answer], widths: &mut [u64])
    ensures { (view place.new, widths.new) ≡ asked_all (view place.old, widths.old) 0 answers.now }
{
    for (i, answer) in answers.iter().enumerate() {
        ask(place, *answer);
        show_width(place, widths, i);
    }
}

// Takes a ticket and answers it; where either is denied the readout stays as it was.
fn ask(place: &mut Readout, answer: Answer)
    ensures { view place.new ≡ asked (view place.old) answer }
{
    let _ = try_ask(place, answer.at, Purpose::Answer(answer.value));
}

// Writes the width so far at place i of a row, where the row has that place.
fn show_width(place: &Readout, widths: &mut [u64], i: usize)
    ensures { widths.new ≡ slice_set widths.old i (width (view place.now).points) }
{
    if i < widths.len() {
        widths[i] = place.log().limits().width();
    }
}

// The door strip: its making, and what it answers.
ghost use Rattle.std.specs.Prelude.{◌≡◌, ◌*◌, ◌≤◌, [], ◌∷◌, length};
ghost use Rattle.denials.specs.Told.{told};
ghost use Rattle.denials.specs.Checks.{Decided};
ghost use Rattle.strips.specs.Bits.{strip_table, strip_never_falls};
ghost use Rattle.strips.specs.Makings.{strip_denied};
ghost use Rattle.strips.specs.Held.{words_of};

use super::DoorStrip;
use denials::Denial;
use loggers::{Logger, check_span};

// How many ones stand among the first x bits of a row of words: whole words and a masked last one, as the project fixes it.
#[tactic(auto, using(crate::proofs::Counts::few_ones, crate::proofs::Counts::few_rest))]
fn ones_before(words: &[u64], x: u32) -> u32
    requires { x ≤ 64 * length words.now }
    ensures { result ≡ strip_table words.now x }
{
    let whole = (x / 64) as usize;
    let rest = x % 64;
    let mut total = 0;
    for word in &words[..whole] {
        total += word.count_ones();
    }
    if rest == 0 {
        return total;
    }
    total + (words[whole] & ((1 << rest) - 1)).count_ones()
}

impl<'a> DoorStrip<'a> {
    // A new place: span 1 and values 0.
    pub fn new() -> DoorStrip<'a>
        ensures { (words_of result ≡ 0 ∷ []) × (result.span ≡ 1) }
    {
        DoorStrip {
            words: &[0],
            span: 1,
        }
    }

    // Fills the place with the logger that counts these words' bits; on a denial the place stays as it was.
    pub fn fill(&mut self, words: &'a [u64], span: u32) -> Result<(), Denial>
        ensures { Decided told (strip_denied words.now span) result (λ _. (words_of self.new ≡ words.now) × (self.new.span ≡ span)) (self.new ≡ self.old) }
    {
        check_span(span as usize)?;
        if words.len() < (span as usize).div_ceil(64) {
            return Err(Denial::Readings);
        }
        *self = DoorStrip { words, span };
        Ok(())
    }
}

impl<'a> Logger for DoorStrip<'a> {
    ghost table = { λ l. strip_table (words_of l) };

    ghost extent = { λ l. l.span };

    ghost sound = { λ l. (l.long, l.short, λ i j _ le _. strip_never_falls (words_of l) i j le) };

    fn span(&self) -> u32 {
        self.span
    }

    fn first(&self) -> u32 {
        0
    }

    fn last(&self) -> u32 {
        ones_before(self.words, self.span)
    }

    fn count(&self, x: u32) -> Option<u32> {
        (x <= self.span).then(|| ones_before(self.words, x))
    }
}

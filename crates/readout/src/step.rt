// The readout's step: one call, by the ticket that it finds out.
ghost use Rattle.std.specs.Prelude.{◌≡◌, ◌<◌, true, false, length, None, MatchResult};
ghost use Rattle.std.specs.Result.{result_err};
ghost use Rattle.denials.specs.declared.Denial.TheVariants.{OutOfOrder};
ghost use Rattle.tables.specs.Plan.{unknown};
ghost use Rattle.logs.specs.Points.{points};
ghost use Rattle.readout.specs.Calls.{take_denied, out_of_order, stepped, changes};
ghost use Rattle.readout.specs.Noted.{Noted};
ghost use Rattle.readout.specs.Tickets.{is_for};
ghost use Rattle.readout.specs.Views.{view};

use super::events::{Event, Outcome, Refusal};
use super::readouts::Readout;
use super::tickets::{Returned, Ticket};
use denials::Denial;
use logs::Log;
use tables::Point;

impl Readout {
    // Does what the event asks, or says why not and changes nothing. One match on what is out and on the event:
    // the project fixes this form. Inlined, so that a call of a known kind pays for its own arm alone.
    #[inline(always)]
    pub fn step(&mut self, event: Event) -> Result<Outcome, Refusal>
        ensures moves { (view self.new, result) ≡ stepped (view self.old) event }
        ensures keeps { changes result ≡ false → self.new ≡ self.old }
    {
        match (self.out, event) {
            (_, Event::Limits) => Ok(Outcome::Limited(self.limits())),
            (Some(_), Event::Take(_)) => Err(Denial::TicketOut.into()),
            (None, Event::Take(x)) => {
                self.check_question(x)?;
                self.left -= 1;
                self.out = Some(x);
                Ok(Outcome::Given(Ticket::new(self.mark, x)))
            }
            (Some(x), Event::Answer(ticket, value)) if self.gave(&ticket, x) => {
                // no map_err: a closure that is never called would let the ticket lapse
                if let Err(denial) = note(&mut self.log, Point { at: x, value }) {
                    return Err(Returned { denial, ticket }.into());
                }
                ticket.spend();
                self.out = None;
                Ok(Outcome::Answered)
            }
            (Some(x), Event::Withdraw(ticket)) if self.gave(&ticket, x) => {
                ticket.spend();
                self.left += 1;
                self.out = None;
                Ok(Outcome::Withdrawn)
            }
            (_, Event::Answer(ticket, _) | Event::Withdraw(ticket)) => {
                let denial = Denial::NotThisTicket;
                Err(Returned { denial, ticket }.into())
            }
        }
    }

    // Whether the readout gave this ticket for x.
    fn gave(&self, ticket: &Ticket, x: u32) -> bool
        ensures { result ≡ is_for ticket.now (view self.now).mark x }
    {
        ticket.mark() == self.mark && ticket.at() == x
    }

    // The first check that fails of a question for x, to a readout with no ticket out.
    fn check_question(&self, x: u32) -> Result<(), Denial>
        requires { (view self.now).out ≡ None }
        ensures { result_err result ≡ take_denied (view self.now) x }
    {
        if x == 0 || x >= self.log.span() {
            return Err(Denial::NotInner);
        }
        if self.log.has(x) {
            return Err(Denial::Known);
        }
        if self.left == 0 {
            return Err(Denial::NoneLeft);
        }
        Ok(())
    }
}

// Puts a point into the log of which only the value can stand in the way.
fn note(log: &mut Log, p: Point) -> Result<(), Denial>
    requires new { unknown (points log.old) p.at ≡ true }
    requires room { length (points log.old) < 256 }
    ensures { MatchResult result (λ _. Noted (points log.old) p (points log.new)) (λ d. (d ≡ OutOfOrder) × (out_of_order (points log.old) p.at p.value ≡ true) × (log.new ≡ log.old)) }
{
    log.insert(p).map_err(|_| Denial::OutOfOrder)
}

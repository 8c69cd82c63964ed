// The calls on an open readout.
ghost use Rattle.std.specs.Prelude.{◌≡◌};
ghost use Rattle.std.specs.Option.{option_map};
ghost use Rattle.denials.specs.Checks.{Decided};
ghost use Rattle.denials.specs.Told.{told};
ghost use Rattle.readout.specs.Calls.{take_denied, taken, answer_denied, answered, withdraw_denied, withdrawn};
ghost use Rattle.readout.specs.Tickets.{ticket_of, told_back};
ghost use Rattle.readout.specs.Views.{view};

use super::events::{Event, Outcome, Refusal};
use super::readouts::Readout;
use super::tickets::{Returned, Ticket};
use denials::Denial;

impl Readout {
    // Gives a ticket for the argument x. Denied with 4, 5, 6 or 7.
    pub fn take(&mut self, x: u32) -> Result<Ticket, Denial>
        ensures { Decided told (option_map told (take_denied (view self.old) x)) result (λ t. (t ≡ ticket_of (view self.old).mark x) × (view self.new ≡ taken (view self.old) x)) (self.new ≡ self.old) }
    {
        match self.step(Event::Take(x)) {
            Ok(Outcome::Given(ticket)) => Ok(ticket),
            Err(Refusal::Denied(denial)) => Err(denial),
            _ => unreachable(),
        }
    }

    // Takes the answer to the ticket that is out into the log. Denied with 8 or 9, which hand the ticket back.
    pub fn answer(&mut self, ticket: Ticket, value: u32) -> Result<(), Returned>
        ensures { Decided told_back (option_map told_back (answer_denied (view self.old) ticket value)) result (λ _. view self.new ≡ answered (view self.old) ticket.at value) (self.new ≡ self.old) }
    {
        match self.step(Event::Answer(ticket, value)) {
            Ok(Outcome::Answered) => Ok(()),
            Err(Refusal::Back(returned)) => Err(returned),
            _ => unreachable(),
        }
    }

    // Takes back the ticket that is out; its question is left again. Denied with 8, which hands the ticket back.
    pub fn withdraw(&mut self, ticket: Ticket) -> Result<(), Returned>
        ensures { Decided told_back (option_map told_back (withdraw_denied (view self.old) ticket)) result (λ _. view self.new ≡ withdrawn (view self.old)) (self.new ≡ self.old) }
    {
        match self.step(Event::Withdraw(ticket)) {
            Ok(Outcome::Withdrawn) => Ok(()),
            Err(Refusal::Back(returned)) => Err(returned),
            _ => unreachable(),
        }
    }
}

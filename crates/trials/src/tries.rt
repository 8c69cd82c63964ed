// Calls that take a ticket and see to it that it does not lapse: where it is denied, it is withdrawn.
ghost use Rattle.std.specs.Prelude.{◌≡◌, false};
ghost use Rattle.std.specs.Option.{option_map, unwrap_or};
ghost use Rattle.denials.specs.Checks.{Decided};
ghost use Rattle.readout.specs.Calls.{take_denied, not_out, taken, withdrawn};
ghost use Rattle.readout.specs.Tickets.{told_back};
ghost use Rattle.readout.specs.Views.{view};
ghost use Rattle.trials.specs.Tries.{number, bring_denied, brought, try_denied, cross_denied};
ghost use Rattle.trials.specs.Looks.{Around};

use super::looks::{Look, look_at};
use denials::Denial;
use readout::{Readout, Returned, Ticket};

// What a ticket is brought to a readout for: its two calls by name, which an Option of the value would hide.
#[derive(Clone, Copy)]
pub enum Purpose {
    // to be answered with this value
    Answer(u32),
    // to be withdrawn
    Withdraw,
}

// Takes a ticket for x and brings it back at once. Where it is denied, the question is left again.
pub fn try_ask(place: &mut Readout, x: u32, purpose: Purpose) -> Result<(), Denial>
    ensures { Decided number (try_denied (view place.old) x (taken (view place.old) x) purpose) result (λ _. view place.new ≡ brought (taken (view place.old) x) x purpose) (view place.new ≡ view place.old) }
{
    let ticket = place.take(x)?;
    if let Err(Returned { denial, ticket }) = bring(place, ticket, purpose) {
        put_back(place, ticket);
        return Err(denial);
    }
    Ok(())
}

// Takes a ticket for x from its owner and brings it to another readout. Where it is denied, the owner takes it back.
pub fn try_foreign(
    owner: &mut Readout,
    x: u32,
    other: &mut Readout,
    purpose: Purpose,
) -> Result<(), Denial>
    ensures { Decided number (try_denied (view owner.old) x (view other.old) purpose) result (λ _. (view owner.new ≡ taken (view owner.old) x) × (view other.new ≡ brought (view other.old) x purpose)) ((view owner.new ≡ view owner.old) × (view other.new ≡ view other.old)) }
{
    let ticket = owner.take(x)?;
    if let Err(Returned { denial, ticket }) = bring(other, ticket, purpose) {
        put_back(owner, ticket);
        return Err(denial);
    }
    Ok(())
}

// The same while the other readout waits for y: its own ticket is withdrawn in the end.
pub fn try_crossed(
    owner: &mut Readout,
    x: u32,
    other: &mut Readout,
    y: u32,
    purpose: Purpose,
) -> Result<(), Denial>
    ensures { Decided number (cross_denied (view owner.old) x (view other.old) y purpose) result (λ _. (view owner.new ≡ view owner.old) × (view other.new ≡ brought (taken (view other.old) y) x purpose)) ((view owner.new ≡ view owner.old) × (view other.new ≡ view other.old)) }
{
    let own = other.take(y)?;
    if let Err(denial) = try_foreign(owner, x, other, purpose) {
        put_back(other, own);
        return Err(denial);
    }
    // the two tickets are alike, so that the one left over is the owner's
    put_back(owner, own);
    Ok(())
}

// Takes a ticket for x, tries to take another for y, and withdraws the first. Says why there was no second.
pub fn second_take(place: &mut Readout, x: u32, y: u32) -> Denial
    ensures why { number result ≡ unwrap_or (option_map number (take_denied (view place.old) x)) 4 }
    ensures same { view place.new ≡ view place.old }
{
    match place.take(x) {
        Err(denial) => denial,
        Ok(first) => {
            let denial = place.take(y).unwrap_err();
            put_back(place, first);
            denial
        }
    }
}

// Takes a ticket for x and brings it back, with a look at the readout before and after it is brought.
// Where the ticket is denied, it is withdrawn after the second look.
pub fn look_around(place: &mut Readout, x: u32, purpose: Purpose) -> Result<(Look, Look), Denial>
    ensures { Decided number (option_map number (take_denied (view place.old) x)) result (λ looks. Around (view place.old) x purpose looks (view place.new)) (view place.new ≡ view place.old) }
{
    let ticket = place.take(x)?;
    let before = look_at(place);
    let brought = bring(place, ticket, purpose);
    let after = look_at(place);
    if let Err(Returned { denial: _, ticket }) = brought {
        put_back(place, ticket);
    }
    Ok((before, after))
}

// Answers or withdraws the ticket.
fn bring(place: &mut Readout, ticket: Ticket, purpose: Purpose) -> Result<(), Returned>
    ensures { Decided told_back (option_map told_back (bring_denied (view place.old) ticket purpose)) result (λ _. view place.new ≡ brought (view place.old) ticket.at purpose) (place.new ≡ place.old) }
{
    match purpose {
        Purpose::Answer(value) => place.answer(ticket, value),
        Purpose::Withdraw => place.withdraw(ticket),
    }
}

// Withdraws the ticket that is out.
fn put_back(place: &mut Readout, ticket: Ticket)
    requires { not_out (view place.old) ticket ≡ false }
    ensures { view place.new ≡ withdrawn (view place.old) }
{
    place.withdraw(ticket).unwrap();
}

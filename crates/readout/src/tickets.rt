// A ticket: the right to answer one question, and the duty to answer or withdraw it.
ghost use Rattle.std.specs.Prelude.{◌≡◌};
ghost use Rattle.readout.specs.Tickets.{ticket_of};

use denials::Denial;

// Only a readout's take makes one, and only its answer and its withdrawal spend it.
// Nobody else can make one, use one twice or let one lapse (it has no `Drop`): that does not compile.
pub struct Ticket {
    mark: u16,
    at: u32,
}

// A denied answer or withdrawal: why, and the ticket, which is still out.
pub struct Returned {
    pub denial: Denial,
    pub ticket: Ticket,
}

impl Ticket {
    // A ticket of the readout with this mark, for this argument.
    pub(crate) fn new(mark: u16, at: u32) -> Ticket
        ensures { result ≡ ticket_of mark at }
    {
        Ticket { mark, at }
    }

    // The mark of the readout that gave it.
    pub fn mark(&self) -> u16
        ensures { result ≡ self.now.mark }
    {
        self.mark
    }

    // The argument that it asks for.
    pub fn at(&self) -> u32
        ensures { result ≡ self.now.at }
    {
        self.at
    }

    // Ends the ticket, which has been answered or withdrawn.
    pub(crate) fn spend(self) {
        let Ticket { mark: _, at: _ } = self;
    }
}

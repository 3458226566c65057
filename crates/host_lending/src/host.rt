ghost use Rattle.std.specs.Prelude.{◌≡◌};
ghost use Rattle.host_lending.specs.Lending.{gives};
ghost use Rattle.host_lending.specs.Tables.{is_numbered, is_held, is_free, is_other_host, noted};

use crate::answer::LendAnswer;
use crate::event::LendEvent;
use sprite_ids::Kernel;

/// What is known of a host.
#[derive(Clone, Copy, Debug, PartialEq, Eq)]
pub struct Host {
    /// Which host it is.
    pub number: Kernel,
    /// Whether nobody works there.
    pub idle: bool,
    /// Who holds it, where it is lent.
    pub borrower: Option<Kernel>,
}

impl Host {
    // Whether it is the host of that number.
    pub(crate) fn is_numbered(&self, number: Kernel) -> bool
        ensures { result ≡ is_numbered number self.now }
    {
        self.number == number
    }

    // Whether that borrower holds it.
    pub(crate) fn is_held(&self, borrower: Kernel) -> bool
        ensures { result ≡ is_held borrower self.now }
    {
        match self.borrower {
            Some(holder) => holder == borrower,
            None => false,
        }
    }

    // Whether it may be lent to that borrower.
    pub(crate) fn is_free(&self, borrower: Kernel) -> bool
        ensures { result ≡ is_free borrower self.now }
    {
        self.idle && self.borrower.is_none() && self.number != borrower
    }

    // Whether `from` holds it, and it may go to that borrower.
    pub(crate) fn is_other_host(&self, from: Kernel, borrower: Kernel) -> bool
        ensures { result ≡ is_other_host from borrower self.now }
    {
        self.is_held(from) && self.number != borrower
    }

    // Whether the answer gives the host to the one who asked.
    fn is_given(&self, answer: &LendAnswer) -> bool
        ensures { result ≡ gives self.now.number answer.now }
    {
        match *answer {
            LendAnswer::Lent(host) | LendAnswer::Moved { host, .. } => host == self.number,
            _ => false,
        }
    }

    // The host after the event with that answer.
    pub(crate) fn noted(&self, event: &LendEvent, answer: &LendAnswer) -> Host
        ensures { result ≡ noted event.now answer.now self.now }
    {
        let mut host = *self;
        match *event {
            LendEvent::Idle { host: number } if number == self.number => host.idle = true,
            LendEvent::Owner { host: number } if number == self.number => {
                host.idle = false;
                host.borrower = None;
            }
            LendEvent::Borrow { borrower } if self.is_given(answer) => host.borrower = Some(
                borrower,
            ),
            LendEvent::Return {
                borrower,
                host: number,
            } if number == self.number && self.is_held(borrower) => {
                host.borrower = None;
            }
            LendEvent::Leave { borrower } if self.is_held(borrower) => host.borrower = None,
            _ => {}
        }
        host
    }
}

ghost use Rattle.std.specs.Prelude.{◌≡◌, ◌≤◌, ◌<◌, [], None, IfOk, option_map, length, slice_set, slice_index_or};
ghost use Rattle.std.specs.List.{find, AllByRecursion};
ghost use Rattle.host_lending.specs.Lending.{answers_to, last_from, IsWithin, AllLentWell};
ghost use Rattle.host_lending.specs.Tables.{busy_hosts, is_free, is_numbered, is_other_host, is_rich, number_of, count_held, most_among, move_of, borrower_at, is_held_at, reply_to, noted, noted_all};
ghost use Rattle.host_lending.specs.declared.host.Host.{Host};

use crate::answer::LendAnswer;
use crate::event::LendEvent;
use crate::host::Host;
use sprite_ids::{Kernel, NoMemory};
use std::alloc::Global;
use std::marker::Model;

/// Which hosts are idle, and who holds those that are lent (this project).
///
/// A borrower gets a free host: an idle one that isn't lent and isn't its own. Where none is free, a host is taken from
/// the borrower that holds the most, if that is at least two more than the asking one holds; so hosts are shared evenly.
#[derive(Debug, Drop)]
pub struct Lending {
    hosts: Vec<Host>,
}

impl Model for Lending {
    ghost use Rattle.std.specs.Prelude.{List};
    ghost use Rattle.host_lending.specs.declared.host.Host.{Host};

    ghost Value = { List Host };

    ghost view = { λ lending. lending.hosts.items };
}

impl Lending {
    /// The hosts 1 to `hosts`, all of them busy. The one error is want of memory.
    pub fn new(alloc: Global, hosts: u8) -> Result<Lending, NoMemory>
        requires { (1 ≤ hosts) × (hosts ≤ 16) }
        ensures { IfOk result (λ lending. lending ≡ busy_hosts hosts) }
    {
        let mut table = Vec::with_capacity(alloc, usize::from(hosts))?;
        let mut number = 1;
        'fill: while number <= hosts {
            let Some(kernel) = Kernel::new(number) else {
                unreachable!()
            };
            table.push(Host {
                number: kernel,
                idle: false,
                borrower: None,
            })?;
            number += 1;
        }
        Ok(Lending { hosts: table })
    }

    /// Takes an event, and answers it. It takes no memory.
    pub fn take(&mut self, event: LendEvent) -> LendAnswer
        ensures answer { result ≡ reply_to self.old event }
        ensures table { self.new ≡ noted_all self.old event result }
    {
        let answer = self.reply_to(&event);
        note_all(&mut self.hosts, &event, &answer);
        answer
    }

    // The answer to an event.
    fn reply_to(&self, event: &LendEvent) -> LendAnswer
        ensures { result ≡ reply_to self.now event.now }
    {
        match *event {
            LendEvent::Idle { .. } => LendAnswer::Noted,
            LendEvent::Owner { host } => match self.borrower_at(host) {
                Some(borrower) => LendAnswer::Revoked(borrower),
                None => LendAnswer::Noted,
            },
            LendEvent::Borrow { borrower } => match self.first_free(borrower) {
                Some(host) => LendAnswer::Lent(host),
                None => self.move_of(borrower),
            },
            LendEvent::Return { borrower, host } => {
                if self.is_held_at(borrower, host) {
                    LendAnswer::Returned
                } else {
                    LendAnswer::NotHeld
                }
            }
            LendEvent::Leave { borrower } => LendAnswer::Left(self.count_held(borrower)),
        }
    }

    // What is known of the host of that number.
    fn host_at(&self, number: Kernel) -> Option<&Host>
        ensures { option_map (λ host. host.now) result ≡ find (is_numbered number) self.now }
    {
        self.hosts.iter().find(|host| host.is_numbered(number))
    }

    // Who holds that host.
    fn borrower_at(&self, host: Kernel) -> Option<Kernel>
        ensures { result ≡ borrower_at (find (is_numbered host) self.now) }
    {
        match self.host_at(host) {
            Some(known) => known.borrower,
            None => None,
        }
    }

    // Whether that borrower holds that host.
    fn is_held_at(&self, borrower: Kernel, host: Kernel) -> bool
        ensures { result ≡ is_held_at borrower (find (is_numbered host) self.now) }
    {
        match self.host_at(host) {
            Some(known) => known.is_held(borrower),
            None => false,
        }
    }

    // How many hosts the borrower holds.
    fn count_held(&self, borrower: Kernel) -> usize
        ensures { result ≡ count_held self.now borrower }
    {
        self.hosts
            .iter()
            .filter(|host| host.is_held(borrower))
            .count()
    }

    // The least host that may be lent to the borrower.
    fn first_free(&self, borrower: Kernel) -> Option<Kernel>
        ensures { result ≡ number_of (find (is_free borrower) self.now) }
    {
        match self.hosts.iter().find(|host| host.is_free(borrower)) {
            Some(host) => Some(host.number),
            None => None,
        }
    }

    // What the borrower gets of the others, where no host is free.
    fn move_of(&self, borrower: Kernel) -> LendAnswer
        ensures { result ≡ move_of self.now borrower (most_among self.now borrower 0 self.now) }
    {
        let most = self.most_held(borrower);
        if most.saturating_sub(self.count_held(borrower)) < 2 {
            return LendAnswer::NoHost;
        }
        let Some(from) = self.first_rich(borrower, most) else {
            return LendAnswer::NoHost;
        };
        match self.last_other(from, borrower) {
            Some(host) => LendAnswer::Moved { host, from },
            None => LendAnswer::NoHost,
        }
    }

    // The most hosts that another than the borrower holds.
    fn most_held(&self, borrower: Kernel) -> usize
        ensures { result ≡ most_among self.now borrower 0 self.now }
    {
        let mut most = 0;
        for host in &self.hosts {
            if host.number == borrower {
                continue;
            }
            most = most.max(self.count_held(host.number));
        }
        most
    }

    // Whether the kernel of that host is another than the borrower, and holds so many.
    fn is_rich(&self, host: &Host, borrower: Kernel, most: usize) -> bool
        ensures { result ≡ is_rich self.now borrower most host.now }
    {
        host.number != borrower && self.count_held(host.number) == most
    }

    // The least kernel other than the borrower that holds so many.
    fn first_rich(&self, borrower: Kernel, most: usize) -> Option<Kernel>
        ensures { result ≡ number_of (find (is_rich self.now borrower most) self.now) }
    {
        match self
            .hosts
            .iter()
            .find(|host| self.is_rich(host, borrower, most))
        {
            Some(host) => Some(host.number),
            None => None,
        }
    }

    // The greatest host that `from` holds and that isn't the borrower.
    fn last_other(&self, from: Kernel, borrower: Kernel) -> Option<Kernel>
        ensures { result ≡ number_of (last_from (is_other_host from borrower) None self.now) }
    {
        let mut found = None;
        for host in &self.hosts {
            if host.is_other_host(from, borrower) {
                found = Some(*host);
            }
        }
        match found {
            Some(host) => Some(host.number),
            None => None,
        }
    }
}

// Has each host note the event with its answer.
fn note_all(hosts: &mut Vec<Host>, event: &LendEvent, answer: &LendAnswer)
    ensures { hosts.new.items ≡ noted_all hosts.old.items event.now answer.now }
{
    for at in 0..hosts.len() {
        note_at(hosts, at, event, answer);
    }
}

fn note_at(hosts: &mut Vec<Host>, at: usize, event: &LendEvent, answer: &LendAnswer)
    requires { at < length hosts.old.items }
    ensures { (d : Host) → hosts.new.items ≡ slice_set hosts.old.items at (noted event.now answer.now (slice_index_or hosts.old.items at d)) }
{
    hosts[at] = hosts[at].noted(event, answer);
}

/// The answers to a list of events, where all of so many hosts are busy at first (this project).
///
/// The contract looks at the events alone: a host is idle where the last Idle or Owner of it is Idle; it is on loan to a
/// borrower where it was lent or moved to that one, and no later event took it. Each host is on one loan at most, each
/// that is on loan is idle and not its borrower, and `NoHost` comes exactly where no host is free for the one who asks and
/// no other borrower holds at least two more. The one error is want of memory.
pub fn run(alloc: Global, events: &[LendEvent], hosts: u8) -> Result<Vec<LendAnswer>, NoMemory>
    requires hosts { (1 ≤ hosts) × (hosts ≤ 16) }
    requires within { AllByRecursion (IsWithin hosts) events.now }
    ensures answers { IfOk result (λ answers. answers.items ≡ answers_to hosts events.now) }
    ensures lent_well { IfOk result (λ answers. AllLentWell hosts [] events.now answers.items) }
{
    let mut lending = Lending::new(alloc, hosts)?;
    let mut answers = Vec::with_capacity(alloc, events.len())?;
    for event in events {
        answers.push(lending.take(*event))?;
    }
    Ok(answers)
}

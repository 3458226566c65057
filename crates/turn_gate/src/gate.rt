ghost use Rattle.std.specs.Prelude.{◌≡◌, ◌≤◌, [], All, Some, IfErr, IfOk, map, vec_capacity};
ghost use Rattle.turn_gate.specs.Rule.{first_view};
ghost use Rattle.turn_gate.specs.Steps.{Taken, Later, Grows, done, log_of};
ghost use Rattle.turn_gate.specs.Ended.{IsAll, seats_of, Ended};

use crate::book::Book;
use crate::seat::{Seat, Turn};
use crate::view::{Count, Deal, Draw, Look, Raise, Turns, View};
use atomic_table::{Refused, Table};
use std::alloc::Global;
use std::snapshot::Snapshot;
use std::sync::Wait;
use std::sync::atomic::{AtomicU64, Ordering};
use std::thread::Parker;
use std::{array, hint};

// The next ticket, the ticket that is served and the number of items in the log, each modulo 2^64.
const TICKET: usize = 0;

const SERVING: usize = 1;

const COUNT: usize = 2;

// How often a seat looks before it sleeps.
const LOOKS: u32 = 64;

// How often a seat that has no ticket lets others go first before it draws one.
const YIELDS: u32 = 4;

// How many tickets can wait, since no seat has two.
const PLACES: u64 = 16;

/// A value that threads share, each in its turn. Every seat comes back, and `finish` gives the value back.
pub struct Gate<V: Book> {
    table: Table<Option<V>, View<V::Origin, V::Item>, Snapshot<V>, Turns, Global>,
    // Where the seats sleep that have tickets, each at the place of its ticket.
    parkers: [Parker; 16],
    // Where the others sleep: how many do, and how often one of them was woken.
    outside: AtomicU64,
    woken: AtomicU64,
    ghost sized: { (table.shared.table_id.words ≡ 3) × (table.shared.table_id.slots ≡ 1) },
}

impl<V: Book> Gate<V> {
    /// A gate with this value, and that many seats, from 1 to 16, in order of their numbers from 1 on. Where memory is wanting
    /// the value comes back.
    pub fn start(alloc: Global, value: V, seats: u8) -> Result<(Gate<V>, Vec<Seat<V>>), V>
        requires few { (1 ≤ seats) × (seats ≤ 16) }
        requires holds { V.holds value }
        ensures value { IfOk result (λ r. r.0.table.shared.key.value ≡ value) }
        ensures table { IfOk result (λ r. All (λ s. s.token.table_id ≡ r.0.table.shared.table_id) r.1.items) }
        ensures seats { IfOk result (λ r. map (λ s. s.token.me.0) r.1.items ≡ seats_of (V.origin value) (V.log value) seats) }
        ensures all { IfOk result (λ r. IsAll (map (λ s. s.token.me.0) r.1.items)) }
        ensures err { IfErr result (λ v. v ≡ value) }
    {
        let Ok(mut slots) = Vec::with_capacity(alloc, 1) else {
            return Err(value);
        };
        let Ok(row) = Vec::with_capacity(alloc, usize::from(seats)) else {
            slots.destroy_empty();
            return Err(value);
        };
        let about = Snapshot::of(&value);
        let count = value.length();
        slots.push_reserved(Some(value));
        match Table::new(alloc, &[0, 0, count], slots, &about) {
            Ok((table, first)) => {
                let gate = Gate {
                    table,
                    parkers: array::from_fn(|_| Parker::new()),
                    outside: AtomicU64::new(0),
                    woken: AtomicU64::new(0),
                };
                let row = gate.seat_all(first, row, seats);
                Ok((gate, row))
            }
            Err(Refused { mut slots }) => match slots.pop() {
                Some(Some(value)) => {
                    slots.destroy_empty();
                    Err(value)
                }
                _ => unreachable!(),
            },
        }
    }

    // All seats, in order of their numbers.
    fn seat_all(
        &self,
        mut first: atomic_table::Seat<Option<V>, View<V::Origin, V::Item>>,
        mut row: Vec<Seat<V>>,
        seats: u8,
    ) -> Vec<Seat<V>>
        requires table { first.table_id ≡ self.now.table.shared.table_id }
        requires first { first.me ≡ (first_view (V.origin self.now.table.shared.key.value) (V.log self.now.table.shared.key.value), []) }
        requires few { (1 ≤ seats) × (seats ≤ 16) }
        requires room { (row.items ≡ []) × (seats ≤ vec_capacity row) }
        ensures table { All (λ s. s.token.table_id ≡ self.now.table.shared.table_id) result.items }
        ensures seats { map (λ s. s.token.me.0) result.items ≡ seats_of (V.origin self.now.table.shared.key.value) (V.log self.now.table.shared.key.value) seats }
    {
        for tally in 1..seats {
            let token = self.table.shared.split_seat::<Deal>(&mut first);
            row.push_reserved(Seat {
                number: tally + 1,
                token,
            });
        }
        let first = Seat {
            number: 1,
            token: first,
        };
        if let Err(_) = row.insert(0, first) {
            unreachable!()
        }
        row
    }

    /// The seat draws a ticket and waits for its turn: it looks for a while, and then sleeps until it is woken by `put`. It may
    /// wait for ever, and takes no memory. The value then has the origin of the start, and its log is no shorter than the seat
    /// saw; past the opening log it has of this seat's items those that the seat added, in order. What is always true of the
    /// value is true of it.
    pub fn take<R: Wait>(&self, rt: &R, seat: Seat<V>) -> Turn<V>
        requires { seat.token.table_id ≡ self.now.table.shared.table_id }
        ensures table { result.token.table_id ≡ seat.token.table_id }
        ensures view { Taken V.origin V.log result.value seat.token.me.0 result.token.me.0 }
        ensures holds { V.holds result.value }
        ensures later { Later seat.token.me.0 result.token.me.0 }
    {
        let Seat { number, mut token } = seat;
        self.let_others_first(rt);
        let words = &self.table.shared;
        let ticket = words.fetch_add::<Draw>(&mut token, TICKET, 1);
        let mut looks = 0;
        for _ in rt.forever() {
            if words.load::<Look>(&mut token, SERVING) == ticket {
                match words.exchange(&mut token, 0, None) {
                    Some(value) => {
                        let before = value.length();
                        return Turn {
                            value,
                            number,
                            before,
                            token,
                        };
                    }
                    None => unreachable!(),
                }
            }
            if looks < LOOKS {
                looks += 1;
                hint::spin_loop();
            } else {
                self.parker_of(ticket).park(rt);
            }
        }
        unreachable!()
    }

    // Lets the seats that have tickets go first, for a while, so that it is rare that a seat sleeps with a ticket: such a seat holds
    // others up while it wakes.
    fn let_others_first<R: Wait>(&self, rt: &R) {
        for _ in 0..YIELDS {
            if self.gets_free() {
                return;
            }
            self.sleep_outside(rt);
        }
    }

    // Whether the gate is free, or gets free while one looks.
    fn gets_free(&self) -> bool {
        for _ in 0..LOOKS {
            if self.is_free() {
                return true;
            }
            hint::spin_loop();
        }
        false
    }

    // Whether no seat has a ticket.
    fn is_free(&self) -> bool {
        let words = &self.table.shared;
        words.peek(TICKET) == words.peek(SERVING)
    }

    // Sleeps while a seat has a ticket, until woken. The seat notes that it sleeps before it looks, and who puts the value back looks
    // for such notes behind the raise: so one of the two sees the other.
    fn sleep_outside<R: Wait>(&self, rt: &R) {
        self.outside.fetch_add(1, Ordering::SeqCst);
        let seen = self.woken.load(Ordering::SeqCst) & 0xffff_ffff;
        if !self.is_free() {
            self.woken.park(rt, seen as u32);
        }
        self.outside.fetch_sub(1, Ordering::SeqCst);
    }

    // Wakes the seat with that ticket, or, where no seat has a ticket, one that sleeps without.
    fn wake_next(&self, ticket: u64) {
        self.parker_of(ticket).unpark();
        if self.outside.load(Ordering::SeqCst) != 0 && self.is_free() {
            self.woken.fetch_add(1, Ordering::SeqCst);
            self.woken.wake_one();
        }
    }

    // Where the seat with the ticket sleeps.
    fn parker_of(&self, ticket: u64) -> &Parker {
        &self.parkers[(ticket % PLACES) as usize]
    }

    /// The value goes back, and the turn to the next ticket, whose seat is woken where it sleeps. The value must have kept its
    /// origin and what is always true of it, and its log must have grown by items of this seat's number alone. These are then the
    /// seat's, and it has seen the whole log.
    pub fn put(&self, turn: Turn<V>) -> Seat<V>
        requires table { turn.token.table_id ≡ self.now.table.shared.table_id }
        requires origin { Some (V.origin turn.value) ≡ turn.token.me.0.origin }
        requires holds { V.holds turn.value }
        requires log { Grows turn.token.me.0.number (log_of turn.token.me.0) (V.log turn.value) }
        ensures table { result.token.table_id ≡ turn.token.table_id }
        ensures view { result.token.me.0 ≡ done turn.token.me.0 (V.log turn.value) }
        ensures later { Later turn.token.me.0 result.token.me.0 }
    {
        let Turn {
            value,
            number,
            before,
            mut token,
        } = turn;
        let more = value.length() - before;
        let words = &self.table.shared;
        match words.exchange(&mut token, 0, Some(value)) {
            None => {}
            Some(_) => unreachable!(),
        }
        words.fetch_add::<Count>(&mut token, COUNT, more);
        let ticket = words.fetch_add::<Raise>(&mut token, SERVING, 1);
        self.wake_next(ticket.wrapping_add(1));
        Seat { number, token }
    }

    /// The value, when all seats have come back, in order of their numbers. It has the origin of the start; its log is the
    /// opening log and then items of the seats alone; each seat's items stand in it each once, in order; and it is at least
    /// as long as any seat saw. What is always true of the value is true of it. It takes no memory.
    pub fn finish(self, mut seats: Vec<Seat<V>>) -> V
        requires table { All (λ s. s.token.table_id ≡ self.table.shared.table_id) seats.items }
        requires all { IsAll (map (λ s. s.token.me.0) seats.items) }
        ensures ended { Ended (V.origin self.table.shared.key.value) (V.log self.table.shared.key.value) (V.origin result) (V.log result) (map (λ s. s.token.me.0) seats.items) }
        ensures holds { V.holds result }
    {
        let Gate {
            table,
            parkers: _,
            outside: _,
            woken: _,
        } = self;
        let Seat {
            number: _,
            mut token,
        } = seats.remove(0);
        for seat in seats {
            let Seat {
                number: _,
                token: other,
            } = seat;
            table.shared.join_seat::<Deal>(&mut token, other);
        }
        let mut closed = table.close_with(token);
        let value = closed.take(0);
        closed.free();
        match value {
            Some(value) => value,
            None => unreachable!(),
        }
    }
}

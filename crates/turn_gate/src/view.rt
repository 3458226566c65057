//! What a seat knows, and what each step on the gate's words tells it. No value of these types is made: they are for
//! the proofs.
use crate::book::Book;
use atomic_table::{Join, Play, Split, TableRule};
use std::collections::LinkedList;
use std::snapshot::Snapshot;

/// What one seat knows of the gate. No value of it is made.
pub struct View<O, I> {
    /// The value's origin; `None` exactly in a view that was joined into another.
    pub origin: Option<O>,
    /// The log at the start.
    pub opening: LinkedList<(u8, I)>,
    /// How many numbers were given out, at one seat at most.
    pub tally: Option<u8>,
    /// The seat's own number, from 1.
    pub number: u8,
    /// The numbers whose items it keeps.
    pub keeps: LinkedList<u8>,
    /// These items, each with its number, in their order.
    pub items: LinkedList<(u8, I)>,
    /// The length of the log that it saw.
    pub seen: u64,
    /// Its ticket, counted without end.
    pub ticket: Option<u64>,
    /// The log, exactly while it has the value.
    pub log: Option<LinkedList<(u8, I)>>,
}

/// The rule of the gate's words, its slot and the views of its seats.
pub struct Turns;

impl<V: Book> TableRule<Option<V>, View<V::Origin, V::Item>, Snapshot<V>> for Turns {
    ghost use Rattle.turn_gate.specs.Rule.{Kept, first_view};

    ghost holds = { λ k. Kept V.origin V.log V.holds (V.origin k.value) (V.log k.value) };

    ghost first = { λ k. first_view (V.origin k.value) (V.log k.value) };
}

/// A ticket is drawn.
pub struct Draw;

impl<S, O, I> Play<S, View<O, I>> for Draw {
    ghost use Rattle.turn_gate.specs.Steps.{Draws};

    ghost then = { λ step m found n. Draws m found n };
}

/// The word of turns is read, and the value is taken where it is the seat's turn.
pub struct Look;

impl<V: Book> Play<Option<V>, View<V::Origin, V::Item>> for Look {
    ghost use Rattle.turn_gate.specs.Steps.{Looks};

    ghost then = { λ step m found n. Looks V.origin V.log V.holds m found n };
}

/// The count of items is raised, with the value in the slot.
pub struct Count;

impl<V: Book> Play<Option<V>, View<V::Origin, V::Item>> for Count {
    ghost use Rattle.turn_gate.specs.Steps.{Counts};

    ghost then = { λ step m found n. Counts V.log m n };
}

/// The turn goes to the next ticket, and the value is given back.
pub struct Raise;

impl<S, O, I> Play<S, View<O, I>> for Raise {
    ghost use Rattle.turn_gate.specs.Steps.{Raises};

    ghost then = { λ step m found n. Raises m n };
}

/// A new seat is made, and seats are joined.
pub struct Deal;

impl<O, I> Split<View<O, I>> for Deal {
    ghost use Rattle.turn_gate.specs.Steps.{dealer, dealt};

    ghost left = { dealer };

    ghost right = { dealt };
}

impl<O, I> Join<View<O, I>> for Deal {
    ghost use Rattle.turn_gate.specs.Steps.{joined, spent_view};

    ghost both = { joined };

    ghost spent = { spent_view };
}

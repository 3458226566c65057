ghost use Rattle.std.specs.Prelude.{◌≡◌, ◌≤◌, length, None};
ghost use Rattle.turn_gate.specs.Steps.{IsIdle, IsServed, IsPlain, log_of};

use crate::book::Book;
use crate::view::View;

/// A thread's place at a gate, with its number from 1. It knows the items that it added, and how long a log it saw.
#[derive(Drop)]
pub struct Seat<V: Book> {
    pub(crate) number: u8,
    pub(crate) token: atomic_table::Seat<Option<V>, View<V::Origin, V::Item>>,
    ghost idle: { IsIdle token.me },
    ghost plain: { IsPlain number token.me.0 },
}

/// A seat whose turn it is, with the value.
pub struct Turn<V: Book> {
    /// The value. What is put back has the same origin, and its log has grown by items of this seat's number alone.
    pub value: V,
    pub(crate) number: u8,
    // The log's length when the turn began.
    pub(crate) before: u64,
    pub(crate) token: atomic_table::Seat<Option<V>, View<V::Origin, V::Item>>,
    ghost served: { IsServed token.me None },
    ghost plain: { IsPlain number token.me.0 },
    ghost counted: { before ≡ length (log_of token.me.0) },
    ghost saw: { token.me.0.seen ≤ before },
}

impl<V: Book> Seat<V> {
    /// The seat's number, from 1.
    pub fn number(&self) -> u8
        ensures { result ≡ self.now.token.me.0.number }
    {
        self.number
    }
}

impl<V: Book> Turn<V> {
    /// The seat's number, from 1.
    pub fn number(&self) -> u8
        ensures { result ≡ self.now.token.me.0.number }
    {
        self.number
    }
}

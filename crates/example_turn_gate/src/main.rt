//! One value that threads take in turns, by itself (this project): two threads write into one ledger, each under its own number, and the
//! ledger comes back with all that they wrote, and with its sum. Docs/BUILDERS.md says what `turn_gate` promises.
#![tactic(auto)]

ghost use Rattle.std.specs.Prelude.{◌≡◌, ◌+◌, All, map};
ghost use Rattle.turn_gate.specs.Steps.{Grows, Later};
ghost use Rattle.turn_gate.specs.Ended.{IsAll};
ghost use Rattle.example_turn_gate.specs.Sums.{sum_of};

use std::alloc::Global;
use std::sync::Wait;
use std::thread::Threads;
use std::{io, thread};
use turn_gate::{Book, Gate, Seat};

/// Amounts, each with the seat that wrote it, behind one that the ledger opened with; and what they all come to.
#[derive(Drop)]
struct Ledger {
    opening: u64,
    amounts: Vec<(u8, u32)>,
    sum: u64,
}

impl Book for Ledger {
    type Origin = u64;

    type Item = u32;

    ghost origin = { λ l. l.opening };

    ghost holds = { λ l. l.sum ≡ l.opening + sum_of l.amounts.items };

    ghost log = { λ l. l.amounts.items };

    fn length(&self) -> u64 {
        self.amounts.len() as u64
    }
}

impl Ledger {
    // Writes an amount, where there is memory for it and the sum stays below 2^64.
    fn write(&mut self, seat: u8, amount: u32)
        requires { self.old.sum ≡ self.old.opening + sum_of self.old.amounts.items }
        ensures opening { self.new.opening ≡ self.old.opening }
        ensures summed { self.new.sum ≡ self.new.opening + sum_of self.new.amounts.items }
        ensures amounts { Grows seat self.old.amounts.items self.new.amounts.items }
    {
        let Some(sum) = self.sum.checked_add(u64::from(amount)) else {
            return;
        };
        if self.amounts.push((seat, amount)).is_ok() {
            self.sum = sum;
        }
    }
}

fn main(rt: HostRuntime) -> io::Result<()> {
    let ledger = written(&rt, rt.alloc());
    println!(rt;
        "{} amounts, and {} in all",
        ledger.amounts.len(),
        ledger.sum
    )?;
    for seat in 1..3 {
        println!(rt;
            "of seat {seat} in order: {}",
            in_order(&ledger.amounts, seat)
        )?;
    }
    Ok(())
}

/// A ledger into which two threads write, a hundred amounts each.
fn written<R: Threads + Wait + Sync>(rt: &R, alloc: Global) -> Ledger
    ensures { result.sum ≡ result.opening + sum_of result.amounts.items }
{
    let ledger = Ledger {
        opening: 7,
        amounts: Vec::new(alloc),
        sum: 7,
    };
    match Gate::start(alloc, ledger, 2) {
        Err(ledger) => ledger,
        Ok((gate, seats)) => {
            let seats = write_both(rt, &gate, seats);
            gate.finish(seats)
        }
    }
}

/// The last two seats write, each on a thread.
#[tactic(auto, using(crate::proofs::PairLaws::two_later))]
fn write_both<R: Threads + Wait + Sync>(
    rt: &R,
    gate: &Gate<Ledger>,
    seats: Vec<Seat<Ledger>>,
) -> Vec<Seat<Ledger>>
    requires table { All (λ s. s.token.table_id ≡ gate.now.table.shared.table_id) seats.items }
    requires all { IsAll (map (λ s. s.token.me.0) seats.items) }
    ensures table { All (λ s. s.token.table_id ≡ gate.now.table.shared.table_id) result.items }
    ensures all { IsAll (map (λ s. s.token.me.0) result.items) }
{
    let mut seats = seats;
    let Some(second) = seats.pop() else {
        return seats;
    };
    let Some(first) = seats.pop() else {
        seats.push_reserved(second);
        return seats;
    };
    let (first, second) = thread::join(
        rt,
        || write_amounts(rt, gate, first),
        || write_amounts(rt, gate, second),
    );
    seats.push_reserved(first);
    seats.push_reserved(second);
    seats
}

/// A hundred turns of the seat, each with its number as an amount.
fn write_amounts<R: Wait>(rt: &R, gate: &Gate<Ledger>, seat: Seat<Ledger>) -> Seat<Ledger>
    requires { seat.token.table_id ≡ gate.now.table.shared.table_id }
    ensures table { result.token.table_id ≡ seat.token.table_id }
    ensures later { Later seat.token.me.0 result.token.me.0 }
{
    let mut seat = seat;
    for amount in 0..100 {
        let mut turn = gate.take(rt, seat);
        let number = turn.number();
        turn.value.write(number, amount);
        seat = gate.put(turn);
    }
    seat
}

/// Whether the amounts of the seat are 0, 1, 2 and so on.
fn in_order(amounts: &[(u8, u32)], seat: u8) -> bool {
    let mut next = 0;
    for amount in amounts {
        if amount.0 == seat {
            if amount.1 != next {
                return false;
            }
            next = amount.1.saturating_add(1);
        }
    }
    true
}

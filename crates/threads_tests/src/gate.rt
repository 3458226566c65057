ghost use Rattle.std.specs.Prelude.{◌≡◌, ◌≤◌, All, IfOk, map};
ghost use Rattle.turn_gate.specs.Steps.{Grows, Later};
ghost use Rattle.turn_gate.specs.Ended.{IsAll};

use std::alloc::{AllocError, Global};
use std::process::Abort;
use std::sync::Wait;
use std::test::Fail;
use std::thread;
use std::thread::Threads;
use turn_gate::{Book, Gate, Seat};

// Numbered lines under one title, each with the seat that wrote it.
#[derive(Drop)]
struct Ledger {
    title: u32,
    lines: Vec<(u8, u32)>,
}

impl Book for Ledger {
    type Origin = u32;

    type Item = u32;

    ghost origin = { λ s. s.title };

    ghost holds = { λ s. s.title ≡ 7 };

    ghost log = { λ s. s.lines.items };

    fn length(&self) -> u64 {
        self.lines.len() as u64
    }
}

impl Ledger {
    // Writes a line, where there is memory for it.
    fn write(&mut self, seat: u8, line: u32)
        ensures title { self.new.title ≡ self.old.title }
        ensures lines { Grows seat self.old.lines.items self.new.lines.items }
    {
        let _ = self.lines.push((seat, line));
    }
}

// Leaves the processor to others, that often.
fn hold(looks: u32) {
    for _ in 0..looks {
        thread::yield_now();
    }
}

// That many turns, each with its number as a line, and each held for so many looks.
fn serve<R: Wait>(
    rt: &R,
    gate: &Gate<Ledger>,
    mut seat: Seat<Ledger>,
    turns: u32,
    looks: u32,
) -> Seat<Ledger>
    requires { seat.token.table_id ≡ gate.now.table.shared.table_id }
    ensures table { result.token.table_id ≡ seat.token.table_id }
    ensures later { Later seat.token.me.0 result.token.me.0 }
{
    for line in 0..turns {
        let mut turn = gate.take(rt, seat);
        let number = turn.number();
        turn.value.write(number, line);
        hold(looks);
        seat = gate.put(turn);
    }
    seat
}

fn all_serve<R: Threads + Wait + Sync>(
    rt: &R,
    gate: &Gate<Ledger>,
    seats: Vec<Seat<Ledger>>,
    each: u32,
    more: u32,
    looks: u32,
) -> Result<Vec<Seat<Ledger>>, AllocError>
    requires table { All (λ s. s.token.table_id ≡ gate.now.table.shared.table_id) seats.items }
    requires all { IsAll (map (λ s. s.token.me.0) seats.items) }
    ensures table { IfOk result (λ v. All (λ s. s.token.table_id ≡ gate.now.table.shared.table_id) v.items) }
    ensures all { IfOk result (λ v. IsAll (map (λ s. s.token.me.0) v.items)) }
{
    thread::map_vec(
        rt,
        seats,
        &|seat: Seat<Ledger>| -> Seat<Ledger>
            requires { seat.token.table_id ≡ gate.now.table.shared.table_id }
            ensures table { result.token.table_id ≡ seat.token.table_id }
            ensures later { Later seat.token.me.0 result.token.me.0 }
        {
            let turns = each.saturating_add(more.saturating_mul(u32::from(seat.number())));
            serve(rt, gate, seat, turns, looks)
        },
    )
}

// A ledger that this many threads wrote.
fn written<R: Threads + Wait + Abort + Sync>(
    rt: &R,
    alloc: Global,
    seats: u8,
    each: u32,
    more: u32,
    looks: u32,
) -> Ledger
    requires { (1 ≤ seats) × (seats ≤ 16) }
    ensures { result.title ≡ 7 }
{
    let ledger = Ledger {
        title: 7,
        lines: Vec::new(alloc),
    };
    match Gate::start(alloc, ledger, seats) {
        Err(ledger) => ledger,
        Ok((gate, row)) => match all_serve(rt, &gate, row, each, more, looks) {
            Ok(row) => gate.finish(row),
            Err(_) => panic!(rt; "no memory for the threads"),
        },
    }
}

// How many lines the seat wrote, if they are 0, 1, 2 and so on in this order.
fn in_order(lines: &[(u8, u32)], seat: u8) -> Option<u32> {
    let mut next = 0;
    for line in lines {
        if line.0 == seat {
            if line.1 != next {
                return None;
            }
            next = line.1.saturating_add(1);
        }
    }
    Some(next)
}

#[test]
fn two_threads_of_a_thousand_turns(rt: HostRuntime) -> Result<(), Fail> {
    let ledger = written(&rt, rt.alloc(), 2, 1000, 0, 0);
    assert_eq!(rt; ledger.title, 7);
    assert_eq!(rt; ledger.lines.len(), 2000);
    assert_eq!(rt; in_order(&ledger.lines, 1), Some(1000));
    assert_eq!(rt; in_order(&ledger.lines, 2), Some(1000));
    Ok(())
}

#[test]
fn four_threads_of_different_numbers_of_turns(rt: HostRuntime) -> Result<(), Fail> {
    let ledger = written(&rt, rt.alloc(), 4, 50, 100, 0);
    assert_eq!(rt; ledger.lines.len(), 1200);
    let expected = [(1, 150), (2, 250), (3, 350), (4, 450), (5, 0)];
    for (seat, count) in expected {
        assert_eq!(rt; in_order(&ledger.lines, seat), Some(count), "seat {seat}");
    }
    Ok(())
}

// Each turn is held so long that the others sleep meanwhile; a seat that is not woken would hang it.
#[test]
fn sixteen_threads_of_turns_that_are_held(rt: HostRuntime) -> Result<(), Fail> {
    let ledger = written(&rt, rt.alloc(), 16, 50, 0, 200);
    assert_eq!(rt; ledger.lines.len(), 800);
    for seat in 1..17 {
        assert_eq!(rt; in_order(&ledger.lines, seat), Some(50), "seat {seat}");
    }
    Ok(())
}

use crate::counts::{Counts, raise};
use crate::fates::fate_in;
use crate::link::Link;
use crate::perfect_link::PerfectLink;
use crate::plan::{Fate, Plan, PlanEntry};
use crate::plan_link::PlanLink;
use sprite_ids::{Copying, Items, Kernel};
use std::alloc::Global;
use std::test::Fail;

// The packets in their order, by sender and receiver, each with its fate.
const FATES: [(u8, u8, Fate); 9] = [
    (2, 1, Fate::Once),
    (2, 1, Fate::Twice),
    (1, 2, Fate::Once),
    (2, 1, Fate::Lost),
    (2, 1, Fate::Lost),
    (2, 1, Fate::Once),
    (1, 2, Fate::Twice),
    (2, 1, Fate::Once),
    (2, 16, Fate::Once),
];

// The plan under which they have these fates: packets 3 and 4 from kernel 2 to kernel 1 are lost, and of the others the
// second and the fourth are doubled, whatever their ends.
fn plan(alloc: Global, from: Kernel, to: Kernel) -> Result<Plan, Fail> {
    let lost = PlanEntry {
        from: Some(from),
        to: Some(to),
        first: 3,
        every: 1,
        count: 2,
        fate: Fate::Lost,
    };
    let twice = PlanEntry {
        from: None,
        to: None,
        first: 2,
        every: 2,
        count: 2,
        fate: Fate::Twice,
    };
    let mut entries = Items::new(alloc);
    entries.append(&[lost, twice])?;
    Ok(Plan { entries })
}

// The place of the first packet that has another fate.
fn first_wrong<L: Link>(link: &mut L, packets: &[(u8, u8, Fate)]) -> Result<Option<usize>, Fail> {
    for (at, packet) in packets.iter().enumerate() {
        let from = Kernel::new(packet.0).ok_or("the sender")?;
        let to = Kernel::new(packet.1).ok_or("the receiver")?;
        if link.fate(from, to) != packet.2 {
            return Ok(Some(at));
        }
    }
    Ok(None)
}

#[test]
fn packets_have_the_fates_of_the_plan(rt: HostRuntime) -> Result<(), Fail> {
    let alloc = rt.alloc();
    let one = Kernel::new(1).ok_or("kernel 1")?;
    let two = Kernel::new(2).ok_or("kernel 2")?;
    let plan = plan(alloc, two, one)?.copy(alloc)?;
    let mut link = PlanLink::new(alloc);
    link.load(alloc, &plan)?;
    assert_eq!(rt; first_wrong(&mut link, &FATES)?, None);
    assert_eq!(rt; link.faults(one, two), 4);
    assert_eq!(rt; link.asked(two, one), 8);
    assert_eq!(rt; link.asked(two, two), 0);
    Ok(())
}

#[test]
fn a_perfect_link_makes_no_faults(rt: HostRuntime) -> Result<(), Fail> {
    let alloc = rt.alloc();
    let one = Kernel::new(1).ok_or("kernel 1")?;
    let two = Kernel::new(2).ok_or("kernel 2")?;
    let mut link = PerfectLink::new();
    link.load(alloc, &plan(alloc, two, one)?)?;
    assert_eq!(rt; first_wrong(&mut link, &FATES)?, Some(1));
    assert_eq!(rt; link.faults(two, one), 0);
    assert_eq!(rt; link.asked(one, two), 2);
    Ok(())
}

// Plans that stand at a limit.
#[derive(Clone, Copy, PartialEq, Eq)]
enum Limit {
    // No entry.
    Empty,
    // An entry that names no packet.
    Nothing,
    // An entry without steps, which no description makes.
    Still,
    // One packet.
    Single,
    // All packets from the first on.
    Straight,
    // Each second packet.
    Odd,
    // Two packets with the longest step between them.
    Rare,
    // One packet, behind all others that an entry can begin at.
    Behind,
    // All packets from there on.
    BehindStraight,
    // Two packets, the second of which has a number of more than 32 bits.
    BehindOdd,
    // The farthest packets.
    Farthest,
    // One packet from one kernel to another.
    Between,
    // One packet from a kernel to each other one.
    Sender,
    // One packet to a kernel from each other one.
    Receiver,
    // One packet from each kernel to each other one.
    Anywhere,
    // Entries that name the same packets.
    Order,
    // An entry that lets a packet through, before one that loses all.
    Kept,
    // The plan under which counts are watched.
    Counted,
}

// The entries, each with its plan: sender and receiver, where 0 is any kernel, then first, every, count and fate.
const ENTRIES: [(Limit, u8, u8, u32, u32, u32, Fate); 22] = [
    (Limit::Nothing, 0, 0, 1, 1, 0, Fate::Lost),
    (Limit::Still, 0, 0, 1, 0, u32::MAX, Fate::Lost),
    (Limit::Single, 0, 0, 1, 2, 1, Fate::Lost),
    (Limit::Straight, 0, 0, 1, 1, u32::MAX, Fate::Lost),
    (Limit::Odd, 0, 0, 1, 2, u32::MAX, Fate::Late),
    (Limit::Rare, 0, 0, 1, u32::MAX, 2, Fate::Twice),
    (Limit::Behind, 0, 0, u32::MAX, 1, 1, Fate::Lost),
    (
        Limit::BehindStraight,
        0,
        0,
        u32::MAX,
        1,
        u32::MAX,
        Fate::Lost,
    ),
    (Limit::BehindOdd, 0, 0, u32::MAX, 2, 2, Fate::Lost),
    (
        Limit::Farthest,
        0,
        0,
        u32::MAX,
        u32::MAX,
        u32::MAX,
        Fate::Lost,
    ),
    (Limit::Between, 2, 1, 3, 1, 1, Fate::Lost),
    (Limit::Sender, 2, 0, 3, 1, 1, Fate::Lost),
    (Limit::Receiver, 0, 1, 3, 1, 1, Fate::Lost),
    (Limit::Anywhere, 0, 0, 3, 1, 1, Fate::Lost),
    (Limit::Order, 2, 0, 2, 2, 2, Fate::Lost),
    (Limit::Order, 0, 1, 1, 1, 5, Fate::Twice),
    (Limit::Order, 0, 0, 1, 1, u32::MAX, Fate::Late),
    (Limit::Kept, 2, 1, 3, 1, 1, Fate::Once),
    (Limit::Kept, 0, 0, 1, 1, u32::MAX, Fate::Lost),
    (Limit::Counted, 0, 0, 2, 1, 1, Fate::Lost),
    (Limit::Counted, 2, 0, 3, 1, 1, Fate::Late),
    (Limit::Counted, 2, 16, 1, 1, 1, Fate::Twice),
];

// The packets, by plan, sender, receiver and number, each with its fate.
const LIMITS: [(Limit, u8, u8, u64, Fate); 83] = [
    // Without an entry every packet arrives once.
    (Limit::Empty, 2, 1, 1, Fate::Once),
    (Limit::Empty, 2, 1, u64::MAX, Fate::Once),
    // A count of 0 names none.
    (Limit::Nothing, 2, 1, 1, Fate::Once),
    (Limit::Nothing, 2, 1, 2, Fate::Once),
    (Limit::Nothing, 2, 1, u64::MAX, Fate::Once),
    // No step divides by 0.
    (Limit::Still, 2, 1, 1, Fate::Once),
    (Limit::Still, 2, 1, 2, Fate::Once),
    (Limit::Still, 2, 1, u64::MAX, Fate::Once),
    // 1 alone. The low 32 bits of 4294967297 are 1 too, and it is another packet.
    (Limit::Single, 2, 1, 1, Fate::Lost),
    (Limit::Single, 2, 1, 2, Fate::Once),
    (Limit::Single, 2, 1, 3, Fate::Once),
    (Limit::Single, 2, 1, 4294967297, Fate::Once),
    (Limit::Single, 2, 1, u64::MAX, Fate::Once),
    // 1 to 4294967295; the next one is past the count.
    (Limit::Straight, 2, 1, 1, Fate::Lost),
    (Limit::Straight, 2, 1, 2, Fate::Lost),
    (Limit::Straight, 2, 1, 4294967295, Fate::Lost),
    (Limit::Straight, 2, 1, 4294967296, Fate::Once),
    (Limit::Straight, 2, 1, 4294967297, Fate::Once),
    (Limit::Straight, 2, 1, u64::MAX, Fate::Once),
    // 1, 3 and so on up to 1 + 2 * 4294967294 = 8589934589.
    (Limit::Odd, 2, 1, 1, Fate::Late),
    (Limit::Odd, 2, 1, 2, Fate::Once),
    (Limit::Odd, 2, 1, 3, Fate::Late),
    (Limit::Odd, 2, 1, 4294967296, Fate::Once),
    (Limit::Odd, 2, 1, 4294967297, Fate::Late),
    (Limit::Odd, 2, 1, 8589934588, Fate::Once),
    (Limit::Odd, 2, 1, 8589934589, Fate::Late),
    (Limit::Odd, 2, 1, 8589934591, Fate::Once),
    (Limit::Odd, 2, 1, u64::MAX, Fate::Once),
    // 1 and 1 + 4294967295; one step more is 8589934591, past the count.
    (Limit::Rare, 2, 1, 1, Fate::Twice),
    (Limit::Rare, 2, 1, 2, Fate::Once),
    (Limit::Rare, 2, 1, 4294967295, Fate::Once),
    (Limit::Rare, 2, 1, 4294967296, Fate::Twice),
    (Limit::Rare, 2, 1, 4294967297, Fate::Once),
    (Limit::Rare, 2, 1, 8589934591, Fate::Once),
    // 4294967295 alone.
    (Limit::Behind, 2, 1, 1, Fate::Once),
    (Limit::Behind, 2, 1, 4294967294, Fate::Once),
    (Limit::Behind, 2, 1, 4294967295, Fate::Lost),
    (Limit::Behind, 2, 1, 4294967296, Fate::Once),
    (Limit::Behind, 2, 1, u64::MAX, Fate::Once),
    // 4294967295 to 4294967295 + 4294967294 = 8589934589. The numbers go on past 32 bits: they don't begin anew at 0.
    (Limit::BehindStraight, 2, 1, 1, Fate::Once),
    (Limit::BehindStraight, 2, 1, 4294967294, Fate::Once),
    (Limit::BehindStraight, 2, 1, 4294967295, Fate::Lost),
    (Limit::BehindStraight, 2, 1, 4294967296, Fate::Lost),
    (Limit::BehindStraight, 2, 1, 8589934589, Fate::Lost),
    (Limit::BehindStraight, 2, 1, 8589934590, Fate::Once),
    // 4294967295 and 4294967297, whose low 32 bits are 1.
    (Limit::BehindOdd, 2, 1, 1, Fate::Once),
    (Limit::BehindOdd, 2, 1, 4294967295, Fate::Lost),
    (Limit::BehindOdd, 2, 1, 4294967296, Fate::Once),
    (Limit::BehindOdd, 2, 1, 4294967297, Fate::Lost),
    (Limit::BehindOdd, 2, 1, 4294967299, Fate::Once),
    // 4294967295 times 1 to 4294967295, the last of which is 18446744065119617025. The next two multiples, which still are
    // numbers of 64 bits, are past the count; u64::MAX is 4294967295 * 4294967297. The one after these would pass 64 bits: it
    // doesn't begin anew at 4294967294.
    (Limit::Farthest, 2, 1, 1, Fate::Once),
    (Limit::Farthest, 2, 1, 4294967294, Fate::Once),
    (Limit::Farthest, 2, 1, 4294967295, Fate::Lost),
    (Limit::Farthest, 2, 1, 4294967296, Fate::Once),
    (Limit::Farthest, 2, 1, 8589934590, Fate::Lost),
    (Limit::Farthest, 2, 1, 18446744060824649730, Fate::Lost),
    (Limit::Farthest, 2, 1, 18446744065119617024, Fate::Once),
    (Limit::Farthest, 2, 1, 18446744065119617025, Fate::Lost),
    (Limit::Farthest, 2, 1, 18446744069414584320, Fate::Once),
    (Limit::Farthest, 2, 1, u64::MAX, Fate::Once),
    // Packet 3 alone, where both ends match; the way back is another one.
    (Limit::Between, 2, 1, 2, Fate::Once),
    (Limit::Between, 2, 1, 3, Fate::Lost),
    (Limit::Between, 2, 1, 4, Fate::Once),
    (Limit::Between, 1, 2, 3, Fate::Once),
    (Limit::Between, 2, 16, 3, Fate::Once),
    (Limit::Between, 16, 1, 3, Fate::Once),
    // Any receiver.
    (Limit::Sender, 2, 1, 3, Fate::Lost),
    (Limit::Sender, 2, 16, 3, Fate::Lost),
    (Limit::Sender, 1, 2, 3, Fate::Once),
    // Any sender.
    (Limit::Receiver, 2, 1, 3, Fate::Lost),
    (Limit::Receiver, 16, 1, 3, Fate::Lost),
    (Limit::Receiver, 1, 2, 3, Fate::Once),
    // Both.
    (Limit::Anywhere, 1, 2, 3, Fate::Lost),
    (Limit::Anywhere, 16, 15, 3, Fate::Lost),
    (Limit::Anywhere, 16, 15, 4, Fate::Once),
    // Of the three entries the first that names the packet: 2 and 4 from kernel 2, then 1 to 5 to kernel 1, then the rest.
    (Limit::Order, 2, 1, 1, Fate::Twice),
    (Limit::Order, 2, 1, 4, Fate::Lost),
    (Limit::Order, 2, 1, 5, Fate::Twice),
    (Limit::Order, 2, 1, 6, Fate::Late),
    (Limit::Order, 3, 16, 4294967296, Fate::Once),
    // The first entry wins whatever its fate is, Once too.
    (Limit::Kept, 2, 1, 2, Fate::Lost),
    (Limit::Kept, 2, 1, 3, Fate::Once),
    (Limit::Kept, 1, 2, 3, Fate::Lost),
];

// Packets in their order, by sender and receiver, each with its fate and, behind it, the pair's faults and how often the link
// was asked about the pair. Each way has numbers of its own: packet 2 is lost in each, packet 3 of kernel 2 is late, and its
// first one to kernel 16 is doubled. Both ways of a pair share its two counts.
const COUNTS: [(u8, u8, Fate, u64, u64); 11] = [
    (2, 1, Fate::Once, 0, 1),
    (1, 2, Fate::Once, 0, 2),
    (2, 1, Fate::Lost, 1, 3),
    (1, 2, Fate::Lost, 2, 4),
    (2, 1, Fate::Late, 3, 5),
    (1, 2, Fate::Once, 3, 6),
    (2, 16, Fate::Twice, 1, 1),
    (16, 2, Fate::Once, 1, 2),
    (16, 1, Fate::Once, 0, 1),
    (2, 16, Fate::Lost, 2, 3),
    (2, 1, Fate::Once, 3, 7),
];

// Counts before and after one more: the greatest one stays.
const RAISED: [(u64, u64); 4] = [
    (0, 1),
    (4294967295, 4294967296),
    (18446744073709551614, u64::MAX),
    (u64::MAX, u64::MAX),
];

// The entries of that plan, in their order.
fn entries_at(alloc: Global, limit: Limit) -> Result<Items<PlanEntry>, Fail> {
    let mut entries = Items::new(alloc);
    for entry in &ENTRIES {
        if entry.0 == limit {
            entries.append(&[PlanEntry {
                from: Kernel::new(entry.1),
                to: Kernel::new(entry.2),
                first: entry.3,
                every: entry.4,
                count: entry.5,
                fate: entry.6,
            }])?;
        }
    }
    Ok(entries)
}

// The place of the first packet at a limit that has another fate.
fn first_wrong_limit(alloc: Global) -> Result<Option<usize>, Fail> {
    for (at, packet) in LIMITS.iter().enumerate() {
        let entries = entries_at(alloc, packet.0)?;
        let from = Kernel::new(packet.1).ok_or("the sender")?;
        let to = Kernel::new(packet.2).ok_or("the receiver")?;
        if fate_in(entries.as_slice(), from, to, packet.3) != packet.4 {
            return Ok(Some(at));
        }
    }
    Ok(None)
}

// Whether the pair has these counts, whichever of the two is named first.
fn has_counts(link: &PlanLink, a: Kernel, b: Kernel, faults: u64, asked: u64) -> bool {
    link.faults(a, b) == faults
        && link.faults(b, a) == faults
        && link.asked(a, b) == asked
        && link.asked(b, a) == asked
}

// The place of the first packet with another fate, or other counts behind it.
fn first_wrong_count(alloc: Global) -> Result<Option<usize>, Fail> {
    let mut link = PlanLink::new(alloc);
    let entries = entries_at(alloc, Limit::Counted)?;
    link.load(alloc, &Plan { entries })?;
    for (at, packet) in COUNTS.iter().enumerate() {
        let from = Kernel::new(packet.0).ok_or("the sender")?;
        let to = Kernel::new(packet.1).ok_or("the receiver")?;
        let fate = link.fate(from, to);
        if fate != packet.2 || !has_counts(&link, from, to, packet.3, packet.4) {
            return Ok(Some(at));
        }
    }
    Ok(None)
}

// The place of the first count that is another one after one more.
fn first_wrong_raise() -> Option<usize> {
    let mut counts: Counts = [0; 256];
    for (at, count) in RAISED.iter().enumerate() {
        counts[255] = count.0;
        raise(&mut counts, 255);
        if counts[255] != count.1 {
            return Some(at);
        }
    }
    None
}

#[test]
fn a_plan_keeps_to_its_rule_at_its_limits(rt: HostRuntime) -> Result<(), Fail> {
    assert_eq!(rt; first_wrong_limit(rt.alloc())?, None);
    Ok(())
}

#[test]
fn packets_are_counted_by_ways_and_faults_by_pairs(rt: HostRuntime) -> Result<(), Fail> {
    assert_eq!(rt; first_wrong_count(rt.alloc())?, None);
    Ok(())
}

#[test]
fn a_count_stays_at_the_greatest_one(rt: HostRuntime) -> Result<(), Fail> {
    assert_eq!(rt; first_wrong_raise(), None);
    Ok(())
}

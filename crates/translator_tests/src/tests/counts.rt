// The counts of a few seeds, and the first packets of seed 0.
use super::is_same_in;
use self_test::{Generator, count};
use small_types::U4;
use std::alloc::Global;
use std::process::Abort;
use std::test::Fail;
use ump_grammar::Packet;
use voice_messages::{U7, Voice2};

// How many packets are carried and listed, and how many bytes there are on the way down and again, of these
// packets: a slow model of the same rules in another language has found them.
fn counts_are(
    rt: &impl Abort,
    alloc: Global,
    seed: u32,
    packets: u32,
    counts: [u64; 4],
) -> Result<(), Fail> {
    let found = count(alloc, seed, packets)?;
    let found = [found.carried, found.listed, found.bytes, found.again];
    is_same_in(rt, &seed, &found, &counts);
    Ok(())
}

#[test]
fn a_packet_is_counted(rt: HostRuntime) -> Result<(), Fail> {
    counts_are(&rt, rt.alloc(), 0, 1, [1, 0, 3, 3])
}

#[test]
fn packets_of_each_kind_are_counted(rt: HostRuntime) -> Result<(), Fail> {
    counts_are(&rt, rt.alloc(), 1, 8, [8, 0, 28, 28])?;
    counts_are(&rt, rt.alloc(), 4294967295, 1000, [999, 1, 4288, 6118])?;
    counts_are(&rt, rt.alloc(), 7, 10000, [9961, 39, 42382, 61012])
}

// The greatest number of packets finds its memory too. Each packet is carried or listed, and few are listed.
#[test]
fn a_million_packets_are_counted(rt: HostRuntime) -> Result<(), Fail> {
    let found = count(rt.alloc(), 7, 1_000_000)?;
    assert!(rt; 990_000 < found.carried && found.carried < 1_000_000);
    Ok(())
}

// Seed 0 draws 3C6E, 4750, D1CC, AAF9 and 6252.
#[test]
fn the_first_packet_of_seed_0(rt: HostRuntime) -> Result<(), Fail> {
    let mut generator = Generator::new(0);
    let first = Packet::Voice2 {
        group: U4::low_bits(0),
        message: Voice2::PolyPressure {
            channel: U4::low_bits(0),
            note: U7::low_bits(0x4C),
            value: 0xAAF96252,
        },
    };
    assert!(rt; generator.next() == first);
    Ok(())
}

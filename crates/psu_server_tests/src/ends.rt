//! Sessions that end, and connections that begin too slowly.
use crate::ground::allocated;
use crate::play::{Mismatch, plays};
use crate::server::new_served;
use psu_client::{Client, Missed, is_ended, joined_again, joined_as, repeated, settle};
use psu_server::Open;
use std::alloc::Global;

const ENDS: &str = "
# A session begins to wait for the flusher, and ends: it ends at once, and the next of its number gets nothing of the wait.
== wait_of_an_end.image run
1 joins
1 says *SAV 1;*OPC?
1 silent
1 leaves
1 rejoins
flusher released
1 named
1 silent

# What has not begun ten seconds after it was there ends, also where a byte of a header comes now and then.
== slow_beginnings.image
1 joins
a connects
b connects
c begins
b sends 48
c sends 48
sleep 700
b sends 53
c sends 53
sleep 700
b sends 00
c sends 00
sleep 700
b sends 00
c sends 00
sleep 700
b sends 01
c sends 01
sleep 700
b sends 00
c sends 00
sleep 700
b sends 00
c sends 00
sleep 700
b sends 00
c sends 00
sleep 700
b sends 00
c sends 00
sleep 700
b sends 00
c sends 00
sleep 700
b silent
c silent
a ends
b ends
c ends
1 named
2 rejoins
2 named
";

#[test]
fn what_waits_or_does_not_begin_ends(rt: HostRuntime) -> Result<(), Mismatch> {
    plays(rt, rt.alloc(), ENDS)
}

fn sync_ends(client: Client) -> Result<(), Missed> {
    let Client {
        sync,
        mut other,
        ..
    } = client;
    drop(sync);
    is_ended(&mut other)
}

fn other_ends(client: Client) -> Result<(), Missed> {
    let Client {
        mut sync,
        other,
        ..
    } = client;
    drop(other);
    is_ended(&mut sync)
}

// The end of one connection ends the session.
#[test]
fn connections_end_together(rt: HostRuntime) -> Result<(), Missed> {
    let port = new_served(rt, rt.alloc(), "ends.image", Open)?;
    let one = joined_as(&rt, port, 1)?;
    let two = joined_as(&rt, port, 2)?;
    sync_ends(one)?;
    other_ends(two)?;
    let mut one = joined_again(&rt, port, 1)?;
    one.is_served()?;
    Ok(())
}

// Sends a message and ends both connections at once.
fn says_and_goes(mut client: Client, text: &[u8]) -> Result<u8, Missed> {
    client.say(text)?;
    Ok(client.number)
}

// Messages sent before the end are executed.
#[test]
fn what_was_said_before_the_end_is_done(rt: HostRuntime) -> Result<(), Missed> {
    let alloc = rt.alloc();
    let port = new_served(rt, alloc, "last_words.image", Open)?;
    let mut one = joined_as(&rt, port, 1)?;
    for volts in 1..=30u32 {
        let client = joined_again(&rt, port, 2)?;
        let text = allocated(format!(in alloc; "VOLT 1;VOLT 2;VOLT {volts}"))?;
        says_and_goes(client, text.as_bytes())?;
        drop(joined_again(&rt, port, 2)?);
        let answer = allocated(format!(in alloc; "{volts}.000\n"))?;
        one.ask(b"VOLT?", answer.as_bytes())?;
    }
    Ok(())
}

// 65,000 units in nine messages are executed though both connections end at once, with no other session at work and with
// one.
const HANGS_UP: &str = "
== hang_up_alone.image
1 joins
8 times 1 says {VOLT 1;*7221}VOLT 2
1 says {VOLT 1;*7223}VOLT 7
1 leaves
1 rejoins
1 asks VOLT? -> 7.000

== hang_up_beside_another.image
1 joins
2 joins
8 times 1 says {VOLT 1;*7221}VOLT 2
1 says {VOLT 1;*7223}VOLT 7
2 says {CURR 1;*9000}CURR 2
1 leaves
2 asks CURR? -> 2.000
1 rejoins
1 asks VOLT? -> 7.000
";

#[test]
fn what_was_sent_before_a_hang_up_is_executed(rt: HostRuntime) -> Result<(), Mismatch> {
    plays(rt, rt.alloc(), HANGS_UP)
}

// Sends a transmission of 32,700 calls of a macro of 204 units.
fn says_much(client: &mut Client, alloc: Global) -> Result<(), Missed> {
    let Ok(mut body) = b"*DMC \"M\",#41020".to_vec(alloc) else {
        return Err(Missed::Ground("memory"));
    };
    let (Ok(units), Ok(calls)) = (
        repeated(alloc, b"*WAI;", 204),
        repeated(alloc, b"M;", 32_700),
    ) else {
        return Err(Missed::Ground("memory"));
    };
    if body.extend_from_slice(units.as_slice()).is_err() {
        return Err(Missed::Ground("memory"));
    }
    client.say(body.as_slice())?;
    client.ask(b"*EMC 1;*OPC?", b"1\n")?;
    client.say(calls.as_slice())
}

// Millions of units end with their session: its number is soon free.
#[test]
fn a_long_transmission_ends_with_its_session(rt: HostRuntime) -> Result<(), Missed> {
    let port = new_served(rt, rt.alloc(), "millions_of_units.image", Open)?;
    let mut one = joined_as(&rt, port, 1)?;
    says_much(&mut one, rt.alloc())?;
    settle(&rt);
    drop(one);
    let mut one = joined_again(&rt, port, 1)?;
    one.is_served()?;
    Ok(())
}

//! Releases of locks and the messages sent before them, on two connections.
use crate::ground::{allocated, now, since};
use crate::server::new_served;
use psu_client::{Client, Missed, bare, holds, joined_as, next, send};
use psu_server::Open;
use std::alloc::Global;
use std::mem;
use std::time::{Clock, Duration};

/// The number of a message after one that `ask` sends.
const NEXT: u32 = 0xffff_ff02;

// The holder of the lock writes and releases it at once; the client that waits for it sees what was written.
fn hands_on(
    holder: &mut Client,
    other: &mut Client,
    text: &[u8],
    answer: &[u8],
) -> Result<(), Missed> {
    other.request_lock(10_000)?;
    holder.say_as(NEXT, text)?;
    holder.request_release(NEXT)?;
    other.expect_lock_response(1)?;
    other.ask(b"VOLT?", answer)?;
    holder.expect_lock_response(1)
}

fn hands_round(one: &mut Client, two: &mut Client, alloc: Global) -> Result<(), Missed> {
    let (mut holder, mut other) = (one, two);
    for volts in 1..=300u32 {
        let text = allocated(format!(in alloc; "VOLT {}", volts % 60))?;
        let answer = allocated(format!(in alloc; "{}.000\n", volts % 60))?;
        hands_on(holder, other, text.as_bytes(), answer.as_bytes())?;
        mem::swap(&mut holder, &mut other);
    }
    Ok(())
}

// The next holder of a lock sees all that was written under it.
#[test]
fn a_release_comes_after_what_was_written(rt: HostRuntime) -> Result<(), Missed> {
    let port = new_served(rt, rt.alloc(), "written_before.image", Open)?;
    let mut one = joined_as(&rt, port, 1)?;
    let mut two = joined_as(&rt, port, 2)?;
    one.is_served()?;
    two.is_served()?;
    one.lock()?;
    hands_round(&mut one, &mut two, rt.alloc())?;
    Ok(())
}

// Returns how long a release takes.
fn taken<R: Clock>(rt: &R, client: &mut Client, number: u32) -> Result<Duration, Missed> {
    let start = now(rt)?;
    client.request_release(number)?;
    client.expect_lock_response(1)?;
    since(rt, start)
}

// A release waits a tenth of a second for a message that never comes.
fn waits_in_vain<R: Clock>(rt: &R, client: &mut Client, number: u32) -> Result<(), Missed> {
    client.lock()?;
    let taken = taken(rt, client, number)?;
    holds(taken >= Duration::from_millis(99), "a wait for a message")
}

// A release does not wait for a message that has come, or is too far ahead: at least one of ten releases takes less
// time.
fn waits_not<R: Clock>(rt: &R, client: &mut Client, number: u32) -> Result<(), Missed> {
    for _ in 0..10u32 {
        client.lock()?;
        if taken(rt, client, number)? < Duration::from_millis(99) {
            return Ok(());
        }
    }
    Err(Missed::Claim("no wait"))
}

// The last message that was received has the number ffffff00; the next 65,536 may still come.
#[test]
fn a_release_waits_for_the_next_messages(rt: HostRuntime) -> Result<(), Missed> {
    let port = new_served(rt, rt.alloc(), "message_to_come.image", Open)?;
    let mut one = joined_as(&rt, port, 1)?;
    one.is_served()?;
    waits_not(&rt, &mut one, 0xffff_ff00)?;
    waits_in_vain(&rt, &mut one, 0xffff_ff01)?;
    waits_in_vain(&rt, &mut one, 0x0000_ff00)?;
    waits_not(&rt, &mut one, 0x0000_ff01)?;
    waits_not(&rt, &mut one, 0xffff_feff)?;
    Ok(())
}

// After a device clear the client numbers its messages from the start again, and its release follows the first of them.
fn counts_anew(client: &mut Client, other: &mut Client) -> Result<(), Missed> {
    client.say_as(0xffff_ff10, b"VOLT 1")?;
    client.lock()?;
    client.clear()?;
    client.say(b"VOLT 2")?;
    client.request_release(client.last)?;
    client.expect_lock_response(1)?;
    other.ask(b"VOLT?", b"2.000\n")
}

#[test]
fn messages_are_counted_anew_behind_a_clear(rt: HostRuntime) -> Result<(), Missed> {
    let port = new_served(rt, rt.alloc(), "counted_anew.image", Open)?;
    let mut one = joined_as(&rt, port, 1)?;
    let mut two = joined_as(&rt, port, 2)?;
    for _ in 0..100u32 {
        counts_anew(&mut one, &mut two)?;
    }
    Ok(())
}

// Reads the two answers, in either order.
fn is_released_in_a_clear(client: &mut Client) -> Result<(), Missed> {
    let (first, second) = (next(&mut client.other)?, next(&mut client.other)?);
    let (cleared, released) = (bare(23, 0), bare(5, 1));
    holds(
        (first, second) == (cleared, released) || (first, second) == (released, cleared),
        "a clear and a release",
    )
}

// A waiting release is made when a clear begins: at least one of ten such releases takes less than a tenth of a second.
fn ends_with_a_clear<R: Clock>(rt: &R, client: &mut Client) -> Result<(), Missed> {
    for _ in 0..10u32 {
        client.lock()?;
        let start = now(rt)?;
        client.request_release(NEXT)?;
        send(&mut client.other, &bare(19, 0))?;
        is_released_in_a_clear(client)?;
        client.end_clear()?;
        if since(rt, start)? < Duration::from_millis(99) {
            return Ok(());
        }
        client.is_served()?;
    }
    Err(Missed::Claim("no wait"))
}

#[test]
fn a_clear_ends_the_wait_of_a_release(rt: HostRuntime) -> Result<(), Missed> {
    let port = new_served(rt, rt.alloc(), "clear_of_a_release.image", Open)?;
    let mut one = joined_as(&rt, port, 1)?;
    one.is_served()?;
    ends_with_a_clear(&rt, &mut one)?;
    Ok(())
}

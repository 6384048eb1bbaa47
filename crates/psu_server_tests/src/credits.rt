//! The credit of a session counts only what it holds at the time: more than that in total, one part after another, is
//! accepted.
use crate::ground::allocated;
use crate::server::new_served;
use psu_client::{Client, Missed, bare, expect_header, header, joined_as, repeated, send};
use psu_server::Open;
use std::alloc::{AllocError, Global};

// Returns a transmission of 65,520 bytes that has no query.
fn long(alloc: Global) -> Result<Vec<u8>, AllocError> {
    let mut frame = header(7, 0, 0xffff_ff00, 65_520).to_vec(alloc)?;
    frame.resize(65_536, b';')?;
    Ok(frame)
}

// Queues half a mebibyte after a query that a lock holds back; it is executed after the query.
fn waits_after_query(holder: &mut Client, other: &mut Client, long: &[u8]) -> Result<(), Missed> {
    holder.lock()?;
    other.say(b"*IDN?\n")?;
    for _ in 0..8u32 {
        send(&mut other.sync, long)?;
    }
    holder.release(1)?;
    other.hear(b"EXAMPLE,PSU4,0,1.0\n")?;
    other.is_served()
}

// Two mebibytes in all.
#[test]
fn what_was_executed_is_held_no_more(rt: HostRuntime) -> Result<(), Missed> {
    let port = new_served(rt, rt.alloc(), "held_no_more.image", Open)?;
    let mut one = joined_as(&rt, port, 1)?;
    let mut two = joined_as(&rt, port, 2)?;
    let long = allocated(long(rt.alloc()))?;
    for _ in 0..4u32 {
        waits_after_query(&mut one, &mut two, long.as_slice())?;
    }
    Ok(())
}

// Sends a hundred releases at once, of no lock.
fn releases(client: &mut Client, frames: &[u8]) -> Result<(), Missed> {
    send(&mut client.other, frames)?;
    for _ in 0..100u32 {
        expect_header(&mut client.other, bare(5, 3))?;
    }
    Ok(())
}

// Ten thousand in all.
#[test]
fn what_was_answered_is_owed_no_more(rt: HostRuntime) -> Result<(), Missed> {
    let port = new_served(rt, rt.alloc(), "owed_no_more.image", Open)?;
    let mut one = joined_as(&rt, port, 1)?;
    let frames = allocated(repeated(rt.alloc(), &header(4, 0, one.last, 0), 100))?;
    for _ in 0..100u32 {
        releases(&mut one, frames.as_slice())?;
    }
    one.is_served()?;
    Ok(())
}

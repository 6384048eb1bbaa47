//! Clients that are silent, are many, or come and go.
use crate::server::new_served;
use psu_client::{
    Client, Missed, bare, begun, connected, expect_header, header, is_ended, is_silent,
    joined_again, joined_as, joined_soon, send,
};
use psu_server::Open;
use std::alloc::Global;
use std::net::{Net, TcpStream};
use std::time::Clock;

// Opens connections that send nothing.
fn silent<R: Net<Stream = TcpStream>>(
    rt: &R,
    alloc: Global,
    port: u16,
    count: u32,
) -> Result<Vec<TcpStream>, Missed> {
    let mut streams = Vec::new(alloc);
    for _ in 0..count {
        let stream = connected(rt, port)?;
        if streams.push(stream).is_err() {
            return Err(Missed::Ground("memory"));
        }
    }
    Ok(streams)
}

#[test]
fn silent_connections_shut_nobody_out(rt: HostRuntime) -> Result<(), Missed> {
    let port = new_served(rt, rt.alloc(), "silent.image", Open)?;
    let streams = silent(&rt, rt.alloc(), port, 30)?;
    let mut one = joined_as(&rt, port, 1)?;
    one.works()?;
    let more = silent(&rt, rt.alloc(), port, 70)?;
    let mut two = joined_as(&rt, port, 2)?;
    two.works()?;
    one.works()?;
    drop(streams);
    drop(more);
    Ok(())
}

// With one silent connection too many, the first ends and the second does not, long before their time is over.
fn first_ends(streams: &mut [TcpStream]) -> Result<(), Missed> {
    let Some(first) = streams.get_mut(0) else {
        return Err(Missed::Ground("a connection"));
    };
    is_ended(first)?;
    let Some(second) = streams.get_mut(1) else {
        return Err(Missed::Ground("a connection"));
    };
    is_silent(second)
}

#[test]
fn the_oldest_silent_connection_ends(rt: HostRuntime) -> Result<(), Missed> {
    let port = new_served(rt, rt.alloc(), "oldest_silent.image", Open)?;
    let mut streams = silent(&rt, rt.alloc(), port, 65)?;
    first_ends(streams.as_mut_slice())?;
    Ok(())
}

// Opens sessions of all numbers up to this one.
fn crowd<R: Net<Stream = TcpStream>>(
    rt: &R,
    alloc: Global,
    port: u16,
    count: u8,
) -> Result<Vec<Client>, Missed> {
    let mut clients = Vec::new(alloc);
    for number in 1..=count {
        let client = joined_as(rt, port, number)?;
        if clients.push(client).is_err() {
            return Err(Missed::Ground("memory"));
        }
    }
    Ok(clients)
}

// Tries to open one session too many.
fn is_crowded<R: Net<Stream = TcpStream>>(rt: &R, port: u16) -> Result<(), Missed> {
    let mut stream = connected(rt, port)?;
    send(&mut stream, &header(0, 0, 0x0100_0000, 0))?;
    expect_header(&mut stream, bare(2, 4))?;
    is_ended(&mut stream)
}

// Begins a transmission in the last session, and ends that session.
fn last_ends(clients: &mut Vec<Client>) -> Result<(), Missed> {
    let Some(mut last) = clients.pop() else {
        return Err(Missed::Ground("a client"));
    };
    send(&mut last.sync, &header(6, 0, 0, 5))?;
    send(&mut last.sync, b"FOO;\"")?;
    last.poll(1, 0)
}

fn all_work(clients: &mut Vec<Client>) -> Result<(), Missed> {
    for client in clients.iter_mut() {
        client.is_served()?;
    }
    Ok(())
}

// There are sixteen sessions; a number is used again once its session has ended, and inherits nothing.
#[test]
fn there_are_sixteen_sessions(rt: HostRuntime) -> Result<(), Missed> {
    let port = new_served(rt, rt.alloc(), "sixteen_sessions.image", Open)?;
    let mut clients = crowd(&rt, rt.alloc(), port, 16)?;
    is_crowded(&rt, port)?;
    all_work(&mut clients)?;
    last_ends(&mut clients)?;
    let mut last = joined_again(&rt, port, 16)?;
    last.is_served()?;
    all_work(&mut clients)?;
    Ok(())
}

// Opens and ends a session that is served, a connection that sends nothing, and one that ends before its session is
// joined.
fn comes_and_goes<R: Net<Stream = TcpStream> + Clock>(rt: &R, port: u16) -> Result<(), Missed> {
    for _ in 0..100u32 {
        let mut client = joined_soon(rt, port)?;
        client.is_served()?;
        drop(client);
        let stream = connected(rt, port)?;
        drop(stream);
        let half = begun(rt, port);
        drop(half);
    }
    Ok(())
}

#[test]
fn clients_come_and_go(rt: HostRuntime) -> Result<(), Missed> {
    let port = new_served(rt, rt.alloc(), "come_and_go.image", Open)?;
    comes_and_goes(&rt, port)?;
    let mut one = joined_again(&rt, port, 1)?;
    one.is_served()?;
    Ok(())
}

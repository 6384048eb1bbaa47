//! Stores that break, are reopened, or are worn: how often the disk is tried, and what is reported on standard error.
use crate::ground::{allocated, now, since};
use crate::hold::Hold;
use crate::screen::Screen;
use crate::server::{new_disk, served_disk};
use crate::sick_disk::{Health, SickDisk};
use psu_client::{Client, Missed, holds, joined_as, settle};
use psu_disk::Disk;
use psu_server::{Open, Point};
use std::alloc::Global;
use std::io::Print;
use std::net::{Net, TcpListener, TcpStream};
use std::sync::Wait;
use std::thread::{self, Threads};
use std::time::{Clock, Duration, Instant};

// The place of the first root's number in an image.
const NUMBER: u64 = 8;

// Serves a disk that is well, and opens a session. Returns its health, and standard error.
fn served_on_sick_disk<R>(rt: R) -> Result<(Health, Screen<R>, Client), Missed>
where
    R: Net<Listener = TcpListener, Stream = TcpStream>
        + Alloc<A = Global>
        + Threads
        + Wait
        + Clock
        + Print
        + Copy
        + Send
        + 'static,
{
    let alloc = rt.alloc();
    let health = Health::new(alloc)?;
    let screen = Screen::new(rt, alloc)?;
    let disk = SickDisk::new(new_disk(alloc)?, health.another()?);
    let port = served_disk(rt, alloc, disk, Open, screen.another()?)?;
    Ok((health, screen, joined_as(&rt, port, 1)?))
}

// Saves, and is answered.
fn saves(client: &mut Client) -> Result<(), Missed> {
    client.say(b"VOLT 7;*SAV 1")?;
    client.ask(b"VOLT?", b"7.000\n")
}

// Waits until all is kept.
fn is_kept(client: &mut Client) -> Result<(), Missed> {
    client.ask(b"*OPC?", b"1\n")
}

// By how many milliseconds some seconds of the server's clock, which counts milliseconds, may be shorter than they are.
const SLACK: u64 = 10;

// Returns how many seconds of the server may have passed since a time.
fn seconds_since<R: Clock>(rt: &R, begin: Instant) -> Result<u64, Missed> {
    let passed = since(rt, begin)?.saturating_add(Duration::from_millis(SLACK));
    Ok(passed.as_secs())
}

// Checks that since the beginning the disk was tried, again at most once, and then once a second and no more often.
fn is_tried_each_second<R: Clock>(rt: &R, health: &Health, begin: Instant) -> Result<(), Missed> {
    let tries = u64::try_from(health.refused()).unwrap_or(u64::MAX);
    let seconds = seconds_since(rt, begin)?;
    holds(
        tries >= 1 && tries.saturating_sub(2) <= seconds,
        "a try each second",
    )?;
    Ok(())
}

// A disk that refuses writes is tried again at once where a client's message wakes the flusher, then once a second and no
// more often, whatever the client asks for meanwhile; the broken store is reported once. Once the disk accepts writes
// again, the save is kept without a client's request, and that is reported.
#[test]
fn a_full_disk_is_tried_each_second(rt: HostRuntime) -> Result<(), Missed> {
    let (health, screen, mut one) = served_on_sick_disk(rt)?;
    let begin = now(&rt)?;
    health.be_sick(true);
    saves(&mut one)?;
    screen.shows_soon("psu: store broken\n")?;
    for _ in 0..30u32 {
        one.ask(b"VOLT 7;VOLT?", b"7.000\n")?;
        thread::sleep(&rt, Duration::from_millis(100));
        is_tried_each_second(&rt, &health, begin)?;
    }
    screen.shows("psu: store broken\n")?;
    health.be_sick(false);
    screen.shows_soon("psu: store broken\npsu: store reopened\n")?;
    is_kept(&mut one)?;
    Ok(())
}

// The eighth write fails, and so each second commit.
const OF: usize = 8;

// Saves for three seconds, while the disk fails each second commit. Each message is answered.
fn saves_on_a_flapping_disk<R: Clock>(rt: &R, client: &mut Client) -> Result<(), Missed> {
    let begin = now(rt)?;
    for _ in 0..1_000_000u32 {
        saves(client)?;
        if since(rt, begin)?.as_secs() >= 3 {
            return Ok(());
        }
    }
    Err(Missed::Claim("three seconds"))
}

// A disk that fails each second commit is reported once a second and no more often, with how often the store has
// changed its condition, and no save waits for it.
#[test]
fn a_flapping_disk_is_reported_once_a_second(rt: HostRuntime) -> Result<(), Missed> {
    let (health, screen, mut one) = served_on_sick_disk(rt)?;
    let begin = now(&rt)?;
    health.refuse_one_of(OF);
    saves_on_a_flapping_disk(&rt, &mut one)?;
    let lines = u64::try_from(screen.count()).unwrap_or(u64::MAX);
    let seconds = seconds_since(&rt, begin)?;
    holds(
        lines >= 2 && lines.saturating_sub(1) <= seconds,
        "a line each second",
    )?;
    screen.says(" times)\n")?;
    one.is_served()?;
    Ok(())
}

// While nothing can be written on standard error, a save on a broken store is refused at once, and the store is opened
// again. Then the latest condition is written. The disk refuses the save after a second too, when the store is opened
// again, so it is broken for the second after that.
#[test]
fn a_line_that_cannot_be_written_holds_nothing_up(rt: HostRuntime) -> Result<(), Missed> {
    let (health, screen, mut one) = served_on_sick_disk(rt)?;
    screen.be_full(true);
    health.be_sick(true);
    saves(&mut one)?;
    thread::sleep(&rt, Duration::from_millis(1_300));
    one.say(b"*SAV 2")?;
    one.ask(b"SYST:ERR?", b"-320,\"Storage fault\"\n")?;
    health.be_sick(false);
    thread::sleep(&rt, Duration::from_millis(2_500));
    saves(&mut one)?;
    is_kept(&mut one)?;
    screen.shows("")?;
    screen.be_full(false);
    screen.shows_soon("psu: store broken\npsu: store reopened\n")?;
    Ok(())
}

// A store whose root numbers are used up is reported once.
#[test]
fn a_worn_store_is_reported_once(rt: HostRuntime) -> Result<(), Missed> {
    let alloc = rt.alloc();
    let screen = Screen::new(rt, alloc)?;
    let mut disk = new_disk(alloc)?;
    if disk.size() < NUMBER + 8 || disk.write(NUMBER, &[0xff; 8]).is_err() {
        return Err(Missed::Ground("a number"));
    }
    let port = served_disk(rt, alloc, disk, Open, screen.another()?)?;
    let mut one = joined_as(&rt, port, 1)?;
    saves(&mut one)?;
    screen.shows_soon("psu: store worn\n")?;
    thread::sleep(&rt, Duration::from_millis(2_500));
    screen.shows("psu: store worn\n")?;
    one.is_served()?;
    Ok(())
}

// How many sessions save at the same time.
const SESSIONS: u8 = 6;

// A save and a wait, both of which are refused, and their first error.
const SAVE: &[u8] = b"VOLT 7;*SAV 1;*OPC?;:SYST:ERR?";

const REFUSED: &[u8] = b"-320,\"Storage fault\"\n";

// Saves from all of these sessions at once, each of which is answered.
fn are_refused(clients: &mut [Client]) -> Result<(), Missed> {
    for client in clients.iter_mut() {
        client.say(SAVE)?;
    }
    for client in clients.iter_mut() {
        client.hear(REFUSED)?;
    }
    Ok(())
}

// A disk that refuses the pages of items, while its roots can be written and its syncs succeed: each reopening succeeds,
// and each commit after it breaks the store again. With as many changes accepted as may be unflushed, a save that waits
// for the job is -320 at its end, and so is each save after it, at once. Once the disk accepts all writes, all is saved.
#[test]
fn no_save_waits_for_a_disk_that_refuses_items(rt: HostRuntime) -> Result<(), Missed> {
    let alloc = rt.alloc();
    let health = Health::new(alloc)?;
    let hold = Hold::new(rt, alloc, Some(Point::BeforeRun))?;
    let disk = SickDisk::new(new_disk(alloc)?, health.another()?);
    let screen = Screen::new(rt, alloc)?;
    let port = served_disk(rt, alloc, disk, hold.another()?, screen)?;
    let mut one = joined_as(&rt, port, 1)?;
    let mut clients = Vec::new(alloc);
    for number in 2..SESSIONS + 2 {
        allocated(clients.push(joined_as(&rt, port, number)?))?;
    }
    health.spare_roots();
    health.be_sick(true);
    one.ask(b"VOLT 6;VOLT?", b"6.000\n")?;
    one.fill()?;
    hold.wait_until_held()?;
    one.say(b"*SAV 2;:SYST:ERR?;*CLS")?;
    settle(&rt);
    hold.release()?;
    one.hear(REFUSED)?;
    for _ in 0..30u32 {
        are_refused(&mut clients)?;
        one.ask(b"*CLS;*IDN?", b"EXAMPLE,PSU4,0,1.0\n")?;
    }
    health.be_sick(false);
    thread::sleep(&rt, Duration::from_millis(3_000));
    one.ask(b"*SAV 1;*OPC?;:SYST:ERR?", b"1;0,\"No error\"\n")?;
    Ok(())
}

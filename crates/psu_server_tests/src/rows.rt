//! The responses to sessions, frame by frame.
use crate::images::{executed, is_kept};
use crate::play::{Mismatch, plays};
use crate::server::{formatted, removed, served};
use psu_client::{Client, Missed, joined_as};
use psu_items::IMAGE_LIMIT;
use psu_server::Open;

const ANSWERS: &str = "
# A message is available until the client reports that it was delivered.
== available_answer.image
1 joins
1 sends 'HS 07 00 ff*3 00*8 06 '*IDN? 0a
1 gets 'HS 07 00 ff*3 00*8 13 'EXAMPLE,PSU4,0,1.0 0a
1 async-sends 'HS 15 00 ff*3 00*9
1 async-gets 'HS 16 10 00*12
1 async-sends 'HS 15 01 ff*3 00*9
1 async-gets 'HS 16 00 00*12

# The client takes messages of 20 bytes, the server payloads of 65,536: an answer is cut to the client's size.
== answer_in_parts.image
1 joins
1 async-sends 'HS 0f 00 00*4 00*7 08 00*7 14
1 async-gets 'HS 10 00 00*4 00*7 08 00*5 01 00 00
1 sends 'HS 07 00 ff*3 00*8 06 '*IDN? 0a
1 gets 'HS 06 00 ff*3 00*8 04 'EXAM
1 gets 'HS 06 00 ff*3 00*8 04 'PLE,
1 gets 'HS 06 00 ff*3 00*8 04 'PSU4
1 gets 'HS 06 00 ff*3 00*8 04 ',0,1
1 gets 'HS 07 00 ff*3 00*8 03 '.0 0a

# The flusher is held before its first page while another session is answered; then the save is confirmed.
== overlap.image write
1 joins
2 joins
1 says VOLT 7;*SAV 1;*OPC?
flusher held
2 asks VOLT? -> 7.000
2 named
1 polls 0 00
flusher released
1 hears 1
";

#[test]
fn sessions_are_answered(rt: HostRuntime) -> Result<(), Mismatch> {
    plays(rt, rt.alloc(), ANSWERS)
}

/// Lines that leave an image for which a first service request is prescribed.
const LINES: &[u8] = b"*PSC 0;*SRE 32;*ESE 128;*OPC?\n!POWER\n*STB?;*ESR?;*STB?\n";

// The service request has the event summary and its own bit; the first status query fetches it, the next one does not
// find it.
fn request_is_made(client: &mut Client) -> Result<(), Missed> {
    client.is_requested(0x60)?;
    client.poll(0, 0x60)?;
    client.poll(0, 0x20)
}

// The enables that were kept prescribe the request: power came on, and that event is enabled.
#[test]
fn a_first_request_is_prescribed(rt: HostRuntime) -> Result<(), Missed> {
    let image = "first_request.image";
    formatted(&rt, rt.alloc(), image, IMAGE_LIMIT)?;
    executed(&rt, rt.alloc(), image, LINES)?;
    let port = served(rt, rt.alloc(), image, Open)?;
    let mut one = joined_as(&rt, port, 1)?;
    request_is_made(&mut one)?;
    removed(&rt, image);
    Ok(())
}

/// The settings of register 1: one volt at the first output, and all else as reset.
const ONE_VOLT: &[u8] = b"\x03\xe8\x00\x00\xea\x60\x00\
\x00\x00\x00\x00\xea\x60\x00\x00\x00\x00\x00\xea\x60\x00\x00\x00\x00\x00\xea\x60\x00";

fn save_is_confirmed(client: &mut Client) -> Result<(), Missed> {
    client.say(b"VOLT 1;*SAV 1;*OPC?")?;
    client.await_message()?;
    client.hear(b"1\n")
}

// A confirmed save is in the image.
#[test]
fn a_confirmed_save_is_kept(rt: HostRuntime) -> Result<(), Missed> {
    let image = "confirmed_save.image";
    formatted(&rt, rt.alloc(), image, IMAGE_LIMIT)?;
    let port = served(rt, rt.alloc(), image, Open)?;
    let mut one = joined_as(&rt, port, 1)?;
    save_is_confirmed(&mut one)?;
    is_kept(&rt, image, &[2, 1], ONE_VOLT)?;
    removed(&rt, image);
    Ok(())
}

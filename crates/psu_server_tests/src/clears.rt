//! Device clears: what they discard, and that nothing from before a clear follows it.
use crate::play::{Mismatch, plays};
use crate::server::new_served;
use psu_client::{Client, Missed, joined_as};
use psu_server::Open;

const CLEARS: &str = "
# What is sent between the two messages of a clear is not executed, and what follows is.
== lost_in_a_clear.image
1 joins
1 clearing
1 sends 'HS 07 00 ff*3 00*8 0c 'VOLT 20 '5;*IDN?
1 cleared
1 asks VOLT? -> 0.000

# The confirmation that was waited for never comes; the save is kept, and a later wait is answered.
== clear_of_a_wait.image run
1 joins
1 says *SAV 1;*OPC?
1 silent
flusher held
1 clears
1 named
flusher released
1 asks *OPC? -> 1
1 silent

# A save that waits for room is dropped, and so is what follows it.
== clear_of_a_late_unit.image run
1 joins
1 fills
1 says *SAV 2;*SRE?
1 says *IDN?
1 silent
flusher held
1 clears
1 named
flusher released
1 asks *OPC? -> 1
1 silent

# What a lock holds back is dropped; what follows the clear is held back again.
== clear_of_a_held_unit.image
1 joins
2 joins
2 locks
1 says VOLT 3;*IDN?
1 silent
1 clears
1 says VOLT?
1 silent
2 releases 1
1 hears 0.000

# The end of a clear that no clear waits for is acknowledged; a clear that begins after it has ended at once.
== early_end.image
1 joins
1 cleared
1 clearing
1 named
1 clears
";

#[test]
fn a_clear_drops_what_waits(rt: HostRuntime) -> Result<(), Mismatch> {
    plays(rt, rt.alloc(), CLEARS)
}

const CUT: &str = "
# The clear begins while the answer is not read; it is cut off, and nothing of it comes once the clear has ended.
== clear_of_an_answer.image
1 joins
1 much
1 awaits
pause
1 clearing
1 drained
1 named

# The same where the answer waited for a lock, so that another thread sends it.
== clear_of_a_late_answer.image
1 joins
2 joins
2 locks
1 much
pause
2 releases 1
1 awaits
pause
1 clearing
1 drained
1 named
";

#[test]
fn a_clear_cuts_a_long_answer(rt: HostRuntime) -> Result<(), Mismatch> {
    plays(rt, rt.alloc(), CUT)
}

fn many_clears(client: &mut Client) -> Result<(), Missed> {
    for _ in 0..100u32 {
        client.say(b"*IDN?")?;
        client.begin_clear()?;
        client.end_late()?;
    }
    client.is_served()
}

// A response from before a clear may be on its way.
#[test]
fn clears_follow_questions(rt: HostRuntime) -> Result<(), Missed> {
    let port = new_served(rt, rt.alloc(), "many_clears.image", Open)?;
    let mut one = joined_as(&rt, port, 1)?;
    many_clears(&mut one)?;
    Ok(())
}

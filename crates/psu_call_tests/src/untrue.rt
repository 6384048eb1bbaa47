//! Steps that do not hold, and lines that are not steps: the player refuses each.
use crate::holds::holds;
use crate::plays::{image_of, played, whole};
use psu_call_steps::step_holds;
use psu_disk::Disk;
use psu_exec::Exec;
use std::alloc::Allocator;
use std::process::Abort;

// A device with a session that holds a lock, and with changes that are not flushed.
const BEGUN: &str = "open 1
1: *SRE 4 -> done
1 requests granted at 0 for 0
1: *PSC 0 -> done";

// Steps that do not hold on it, one after another.
const UNTRUE: &str = "1: *PSC? -> 1
1: *PSC? -> 0; costs 0
1: *SRE? -> done
2: *IDN? -> EXAMPLE,PSU4,0,1.0
17: *IDN? -> EXAMPLE,PSU4,0,1.0
*IDN?
1 sends
1 settles 1
2 settles done
2 sent 2
1 srq 68
1 polls 4
work 1
rest
flushed
broken
keeps 4 1
keeps 0 0
lock-info shared 1
lock-info exclusive 2
tick 0 fails 1
next 10
1 requests granted at 0 for 0
open 3
2 shares
1 releases exclusive 2
1 releases exclusive
crowded
1 does *PSC 0;FOO
1 fills FOO
1 srq nothing
beside 1: *PSC? -> 1
unflushed
flush 1
1: *PSC 1 -> error
idle
1 closes 4";

fn are_refused<D: Disk + Drop, A: Allocator + Copy>(rt: &impl Abort, exec: &mut Exec<D, A>) {
    for line in UNTRUE.lines() {
        holds(rt, !step_holds(exec, line), &line);
    }
}

fn are_refused_on<A: Allocator + Copy>(rt: &impl Abort, alloc: A) {
    let mut exec = played(rt, alloc, image_of(rt, alloc, 256), BEGUN);
    are_refused(rt, &mut exec);
    whole(rt, exec);
}

#[test]
fn untrue_steps_do_not_hold(rt: HostRuntime) {
    are_refused_on(&rt, rt.alloc());
}

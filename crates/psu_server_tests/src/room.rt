//! Two units wait for room while there is room for one; the other takes the last room that is made.
use crate::ground::allocated;
use crate::server::new_served;
use psu_client::{Client, Missed, holds, is_silent, joined_as};
use psu_server::{Gate, Point};
use std::alloc::Global;
use std::sync::Arc;
use std::sync::atomic::{AtomicBool, AtomicUsize, Ordering};
use std::thread;
use std::time::{Clock, Duration};

// How often a flag is checked, once a millisecond: not as long as a client waits for a response.
const LOOKS: u32 = 8_000;

#[derive(Drop)]
struct State {
    runs: AtomicUsize,
    is_let_go: AtomicBool,
    tries: AtomicUsize,
}

/// A gate at which the first job waits until it is released; the second until two units were tried after that. From
/// then on a unit that was tried is blocked for half a second, in which all jobs mostly end: that makes it likely that
/// no notice of room follows, and shows nothing by itself. Both units have to be executed in any order.
#[derive(Drop)]
struct Rush<R: Drop> {
    rt: R,
    state: Arc<State>,
}

impl<R: Clock + Copy> Rush<R> {
    fn new(rt: R, alloc: Global) -> Result<Rush<R>, Missed> {
        let state = State {
            runs: AtomicUsize::new(0),
            is_let_go: AtomicBool::new(false),
            tries: AtomicUsize::new(0),
        };
        let state = allocated(Arc::new(alloc, state))?;
        Ok(Rush { rt, state })
    }

    fn another(&self) -> Result<Rush<R>, Missed> {
        Ok(Rush {
            rt: self.rt,
            state: allocated(Arc::try_clone(&self.state))?,
        })
    }

    fn runs(&self) -> usize {
        self.state.runs.load(Ordering::SeqCst)
    }

    fn is_let_go(&self) -> bool {
        self.state.is_let_go.load(Ordering::SeqCst)
    }

    // Waits until the first job is held.
    fn wait_until_held(&self) -> Result<(), Missed> {
        for _ in 0..LOOKS {
            if self.runs() > 0 {
                return Ok(());
            }
            thread::sleep(&self.rt, Duration::from_millis(1));
        }
        Err(Missed::Claim("the flusher is held"))
    }

    fn let_go(&self) -> Result<(), Missed> {
        let was_held = self.runs() == 1;
        self.state.is_let_go.store(true, Ordering::SeqCst);
        holds(was_held, "the flusher was held till now")
    }

    // Whether a job may run, by the number of jobs before it.
    fn may_run(&self, before: usize) -> bool {
        match before {
            0 => self.is_let_go(),
            1 => self.state.tries.load(Ordering::SeqCst) >= 2,
            _ => true,
        }
    }

    fn hold_job(&self) {
        let before = self.state.runs.fetch_add(1, Ordering::SeqCst);
        for _ in 0..LOOKS {
            if self.may_run(before) {
                return;
            }
            thread::sleep(&self.rt, Duration::from_millis(1));
        }
    }

    fn hold_unit(&self) {
        if self.is_let_go() {
            self.state.tries.fetch_add(1, Ordering::SeqCst);
            thread::sleep(&self.rt, Duration::from_millis(500));
        }
    }
}

impl<R: Clock + Copy> Gate for Rush<R> {
    fn at(&self, point: Point) {
        match point {
            Point::BeforeRun => self.hold_job(),
            Point::AfterAnswer => self.hold_unit(),
            Point::BeforeWrite => {}
        }
    }
}

// One save is being flushed, and there is room for no other.
fn fills<R: Clock + Copy>(client: &mut Client, rush: &Rush<R>) -> Result<(), Missed> {
    client.ask(b"*SAV 2;*SRE?", b"0\n")?;
    rush.wait_until_held()?;
    for _ in 0..1_023u32 {
        client.ask(b"*SAV 2;*SRE?", b"0\n")?;
    }
    Ok(())
}

fn waits_for_room(client: &mut Client) -> Result<(), Missed> {
    client.say(b"*SAV 3")?;
    client.say(b"*SRE?")?;
    is_silent(&mut client.sync)
}

// Both are executed, though no wakeup follows the last room that was made.
#[test]
fn two_saves_wait_for_one_room(rt: HostRuntime) -> Result<(), Missed> {
    let rush = Rush::new(rt, rt.alloc())?;
    let port = new_served(rt, rt.alloc(), "one_room.image", rush.another()?)?;
    let mut one = joined_as(&rt, port, 1)?;
    let mut two = joined_as(&rt, port, 2)?;
    fills(&mut one, &rush)?;
    waits_for_room(&mut one)?;
    waits_for_room(&mut two)?;
    rush.let_go()?;
    one.hear(b"0\n")?;
    two.hear(b"0\n")?;
    Ok(())
}

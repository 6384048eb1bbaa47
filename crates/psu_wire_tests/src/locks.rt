//! The locks of two sessions, row by row.
use psu_locks::{Freed, Grant, Info, Kind, LockRefusal, LockString, LockTable, Session, Sessions};

// Returns two sessions.
fn two() -> Option<(Session, Session)> {
    Some((Session::new(1)?, Session::new(2)?))
}

// Whether a session is granted the shared lock `k`.
fn shares(locks: &mut LockTable, session: Session) -> Option<bool> {
    let kind = Kind::Shared(LockString::new(b"k")?);
    Some(locks.request(session, kind, 0, 0) == Ok(Grant::Granted))
}

// Whether two sessions share a lock, and one of them has the exclusive one in addition.
fn lock(locks: &mut LockTable, one: Session, two: Session) -> Option<bool> {
    let at_first = locks.may_command(one) && locks.may_command(two);
    let shared = shares(locks, one)? && shares(locks, two)?;
    let exclusive = locks.request(one, Kind::Exclusive, 0, 0) == Ok(Grant::Granted);
    Some(at_first && shared && exclusive)
}

// Whether a session releases a lock of this kind, and no session waited for it.
fn frees(locks: &mut LockTable, session: Session, wanted: Freed) -> bool {
    match locks.release(session) {
        Ok((freed, then)) => freed == wanted && then.is_empty(),
        Err(_) => false,
    }
}

// The info on an exclusive lock and two sessions that share one.
const BOTH: Info = Info {
    exclusive: true,
    holders: 2,
};

// Whether locks are released in the order exclusive, shared, none.
fn free(locks: &mut LockTable, one: Session, two: Session) -> bool {
    frees(locks, one, Freed::Exclusive)
        && locks.may_command(two)
        && frees(locks, one, Freed::Shared)
        && matches!(locks.release(one), Err(LockRefusal::NotHeld))
}

fn both_are_held() -> Option<bool> {
    let (one, two) = two()?;
    let mut locks = LockTable::new();
    let held = lock(&mut locks, one, two)?
        && locks.may_command(one)
        && !locks.may_command(two)
        && locks.info() == BOTH;
    Some(held && free(&mut locks, one, two))
}

#[test]
fn a_shared_lock_under_an_exclusive_one(rt: HostRuntime) {
    assert!(rt; both_are_held() == Some(true));
}

// Requests the exclusive lock at the moment `now` with a timeout of `wait` milliseconds.
fn exclusive(
    locks: &mut LockTable,
    session: Session,
    now: u64,
    wait: u32,
) -> Result<Grant, LockRefusal> {
    locks.request(session, Kind::Exclusive, now, wait)
}

// Returns the sessions that are granted a lock when a session releases one.
fn granted_after(locks: &mut LockTable, session: Session) -> Option<Sessions> {
    match locks.release(session) {
        Ok((_, then)) => Some(then),
        Err(_) => None,
    }
}

// Whether session one is granted the exclusive lock, and two and three wait for it.
fn wait(locks: &mut LockTable, one: Session, two: Session, three: Session) -> bool {
    exclusive(locks, one, 10, 0) == Ok(Grant::Granted)
        && exclusive(locks, one, 10, 5) == Err(LockRefusal::AlreadyHeld)
        && exclusive(locks, two, 10, 0) == Ok(Grant::Failed)
        && exclusive(locks, three, 20, 100) == Ok(Grant::Queued)
        && exclusive(locks, two, 5, 50) == Ok(Grant::Queued)
        && exclusive(locks, two, 5, 50) == Err(LockRefusal::Waiting)
}

// Whether the lock passes from one to three, and from three to two.
fn continue_after(
    locks: &mut LockTable,
    one: Session,
    two: Session,
    three: Session,
) -> Option<bool> {
    // An earlier moment counts as the latest one so far, 20: the second request fails at 70.
    let early = locks.tick(69).is_empty();
    let after_one = granted_after(locks, one)?.as_slice() == [three].as_slice();
    let failed = locks.tick(70).as_slice() == [two].as_slice();
    let again = exclusive(locks, two, 70, 9) == Ok(Grant::Queued);
    let behind_three = locks.drop_session(three).as_slice() == [two].as_slice();
    Some(early && after_one && failed && again && behind_three)
}

fn all_wait() -> Option<bool> {
    let (one, two) = two()?;
    let three = Session::new(3)?;
    let mut locks = LockTable::new();
    let waited = wait(&mut locks, one, two, three);
    let continued = continue_after(&mut locks, one, two, three)?;
    Some(waited && continued && locks.may_command(two) && !locks.may_command(one))
}

#[test]
fn requests_wait_in_order_of_arrival(rt: HostRuntime) {
    assert!(rt; all_wait() == Some(true));
}

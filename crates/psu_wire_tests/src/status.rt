//! Status reporting: the queue, the groups, and the first service request.
use psu_lex::ScpiError;
use psu_status::{Enables, Filter, Group, Status};

// Whether the queue returns this many undefined headers and an overflow, and then nothing.
fn overflows(status: &mut Status, headers: u32) -> bool {
    for _ in 0..headers {
        if status.pop_error() != Some(ScpiError::UndefinedHeader) {
            return false;
        }
    }
    status.pop_error() == Some(ScpiError::QueueOverflow) && status.pop_error().is_none()
}

#[test]
fn a_queue_that_overflows(rt: HostRuntime) {
    let mut status = Status::power_on(None, 0);
    for _ in 0..17 {
        status.push_error(ScpiError::UndefinedHeader);
    }
    // PON, CME of the errors, DDE of the overflow.
    assert!(rt; status.count() == 16 && status.read_event() == 168 && status.read_event() == 0);
    assert!(rt; overflows(&mut status, 15));
    assert!(rt; ScpiError::QueueOverflow.text() == "Queue overflow");
}

// Returns the first service request with these enables.
fn requested(sre: u8, ese: u8) -> Option<u8> {
    Status::power_on(Some(Enables { sre, ese }), 3).first_request()
}

#[test]
fn the_first_service_request(rt: HostRuntime) {
    assert!(rt;
        Status::power_on(None, 3).first_request().is_none()
            && requested(32, 128) == Some(96)
            && requested(32, 0).is_none()
            && requested(0, 128).is_none()
            && requested(255, 255) == Some(96)
    );
}

// Clears the status, and raises bit 0 where only that is enabled.
fn raise_alone(status: &mut Status) -> bool {
    status.clear();
    let cleared = status.status_byte(false) == 0;
    status.set_sre(0);
    status.set_ese(1);
    status.raise(1);
    cleared && status.ese() == 1 && status.status_byte(false) == 32
}

#[test]
fn the_status_byte(rt: HostRuntime) {
    let mut status = Status::power_on(Some(Enables { sre: 255, ese: 128 }), 0);
    assert!(rt; status.sre() == 191 && status.status_byte(true) == 16 + 32 + 64);
    assert!(rt; raise_alone(&mut status));
}

#[test]
fn a_condition_that_stands_at_power_on_makes_no_event(rt: HostRuntime) {
    let mut status = Status::power_on(None, 32_768 + 3);
    assert!(rt;
        status.group_condition(Group::Questionable) == 3
            && status.group_condition(Group::Operation) == 0
            && status.group_event(Group::Questionable) == 0
    );
    status.condition(1);
    status.condition(3);
    assert!(rt; status.take_group_events(Group::Questionable) == 2);
}

#[test]
fn conditions_make_events(rt: HostRuntime) {
    let mut status = Status::power_on(None, 0);
    status.condition(2);
    status.condition(0);
    assert!(rt;
        status.group_condition(Group::Questionable) == 0
            && status.take_group_events(Group::Questionable) == 2
            && status.take_group_events(Group::Questionable) == 0
    );
}

// Sets the questionable events to those of a condition that ends, and enables the first of them.
fn negative(status: &mut Status) {
    status.set_group_filter(Group::Questionable, Filter::Positive, 0);
    status.set_group_filter(Group::Questionable, Filter::Negative, 65_535);
    status.set_group_filter(Group::Questionable, Filter::Enable, 1);
}

// Returns the status byte with a condition.
fn byte_under(status: &mut Status, condition: u16) -> u8 {
    status.condition(condition);
    status.status_byte(false)
}

#[test]
fn conditions_that_end_make_events(rt: HostRuntime) {
    let mut status = Status::power_on(None, 0);
    negative(&mut status);
    assert!(rt;
        status.group_filter(Group::Questionable, Filter::Negative) == 32_767
            && byte_under(&mut status, 3) == 0
            && byte_under(&mut status, 2) == 8
    );
    status.preset();
    assert!(rt;
        status.status_byte(false) == 0
            && status.take_group_events(Group::Questionable) == 1
            && status.take_group_events(Group::Operation) == 0
    );
}

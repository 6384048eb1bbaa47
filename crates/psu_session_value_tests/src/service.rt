//! Status bytes and service requests.
use crate::plays::play;

const STATUS: &str = r#"
== A message is available until the client has read it
1 opens
1 joins
1 async-sends AsyncStatusQuery
1 async-gets AsyncStatusResponse 0
1 says *IDN?
1 hears EXAMPLE,PSU4,0,1.0
1 async-sends AsyncStatusQuery 0 xffffff00
1 async-gets AsyncStatusResponse 16
1 async-sends AsyncStatusQuery 1 xffffff00
1 async-gets AsyncStatusResponse 0

== The next message says that the client has read it
1 opens
1 joins
1 says *TST?
1 hears 0
1 sends DataEnd 1 xffffff02 VOLT 1\n
1 async-sends AsyncStatusQuery 0 xffffff00
1 async-gets AsyncStatusResponse 0

== It is available to one session and not to another
1 opens
1 joins
2 opens
2 joins
1 says *TST?
1 hears 0
2 async-sends AsyncStatusQuery
2 async-gets AsyncStatusResponse 0
"#;

#[test]
fn status_bytes(rt: HostRuntime) {
    play(&rt, rt.alloc(), STATUS);
}

const REQUESTS: &str = r#"
== A service request is sent once, with its status byte
1 opens
1 joins
1 notified
1 async-gets nothing
1 says *SRE 16;*TST?
1 hears 0
1 notified
1 async-gets AsyncServiceRequest 80
1 notified
1 async-gets nothing
1 async-sends AsyncStatusQuery 0 xffffff00
1 async-gets AsyncStatusResponse 80
1 async-sends AsyncStatusQuery 0 xffffff00
1 async-gets AsyncStatusResponse 16

== An error requests service from all sessions
1 opens
1 joins
2 opens
2 joins
1 says *SRE 4
1 says FOO
1 notified
1 async-gets AsyncServiceRequest 68
2 notified
2 async-gets AsyncServiceRequest 68
1 gets nothing
2 gets nothing

== Control of the front panel is answered
1 opens
1 joins
1 async-sends AsyncRemoteLocalControl 0 & AsyncRemoteLocalControl 6 xffffff00
1 async-gets AsyncRemoteLocalResponse & AsyncRemoteLocalResponse
"#;

#[test]
fn service_requests(rt: HostRuntime) {
    play(&rt, rt.alloc(), REQUESTS);
}

//! A message that ends at any of its bytes.
use crate::holds::holds;
use crate::images::written;
use std::alloc::Global;

// Whether a line is executed after this prefix of a message.
fn continues_after(alloc: Global, prefix: &[u8]) -> Option<bool> {
    let mut input = prefix.to_vec(alloc).ok()?;
    input.extend_from_slice(b"\n*IDN?\n").ok()?;
    Some(written(alloc, &input)?.ends_with(b"EXAMPLE,PSU4,0,1.0\n"))
}

#[test]
fn every_prefix_of_a_message_is_read(rt: HostRuntime) {
    let message = b"*SRE 1.5E1 ;FOO \"a''b\", #13x;y,#0;:A:B? 1V , c;*ESE #H1;'\n*SRE?\n";
    for end in 0..message.len() {
        let continues = continues_after(rt.alloc(), &message[..end]);
        holds(&rt, continues == Some(true), &end);
    }
}

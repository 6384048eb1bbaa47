//! The received part of an incomplete message.
ghost use Rattle.std.specs.Prelude.{◌≡◌, [], IsTrue, IfSome, IsNone};
ghost use Rattle.psu_hislip.specs.Channel.Awaited.{Partial};
ghost use Rattle.psu_hislip.specs.Rest.{awaited, IsRest, IsBegun};

use arrayvec::ArrayVec;
use std::alloc::Allocator;

/// What has been received of an incomplete message.
#[derive(Drop)]
pub(crate) enum Rest<A: Allocator + Copy> {
    /// The first bytes of a header.
    Header(ArrayVec<u8, 16>),
    /// A header, and the first bytes of its payload.
    Payload(crate::Header, Vec<u8, A>),
    /// A header whose payload is too long: so many bytes of it are still to be skipped.
    Passing(u64),
    /// Sixteen bytes that were not a header: everything after them is skipped.
    Ended,
}

impl<A: Allocator + Copy> Rest<A> {
    /// Returns whether no byte has been received.
    pub(crate) fn is_empty(&self) -> bool
        ensures { IsTrue result → awaited self.now ≡ Partial [] }
    {
        match self {
            Rest::Header(head) => head.is_empty(),
            _ => false,
        }
    }

    /// Returns a copy without allocating, or `None` where a payload has begun.
    pub(crate) fn copied(&self) -> Option<Rest<A>>
        requires { IsRest self.now }
        ensures same { IfSome result (λ rest. awaited rest ≡ awaited self.now) }
        ensures good { IfSome result (λ rest. IsRest rest) }
        ensures none { IsNone result → IsBegun self.now }
    {
        match self {
            Rest::Header(head) => {
                let mut copy = ArrayVec::new();
                copy.try_extend_from_slice(head).unwrap();
                Some(Rest::Header(copy))
            }
            Rest::Payload(_, _) => None,
            Rest::Passing(count) => Some(Rest::Passing(*count)),
            Rest::Ended => Some(Rest::Ended),
        }
    }
}

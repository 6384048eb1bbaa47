//! The header of a message.
ghost use Rattle.std.specs.Prelude.{◌≡◌, ◌∷◌, [], ◌↔◌, take, IsSome, IfSome, Some};
ghost use Rattle.psu_hislip.specs.MessageType.{type_of};

use crate::MessageType;

/// The header of a message (IVI-6.1), without its prologue `HS`.
#[derive(Clone, Copy, Debug, PartialEq, Eq)]
pub struct Header {
    /// The code of the message type, which may be undefined.
    pub kind: u8,
    /// The control code.
    pub control: u8,
    /// The message parameter.
    pub parameter: u32,
    /// How many bytes of payload follow.
    pub length: u64,
}

impl Header {
    ghost use Rattle.psu_hislip.specs.Header.{header_bytes, Fits};
    ghost use Rattle.psu_hislip.specs.Frame.{header_of};

    /// Returns the header of a message of this type, control code and parameter, with a payload of `length` bytes.
    pub fn new(kind: MessageType, control: u8, parameter: u32, length: u64) -> Header
        ensures { result ≡ header_of kind control parameter length }
    {
        Header {
            kind: kind.code(),
            control,
            parameter,
            length,
        }
    }

    /// Decodes a header, or returns `None` where the bytes do not begin with `HS`. Numbers are in big-endian byte
    /// order.
    pub fn read(bytes: &[u8; 16]) -> Option<Header>
        ensures some { IsSome result ↔ (take 2 bytes.now ≡ 72 ∷ 83 ∷ []) }
        ensures bytes { IfSome result (λ header. header_bytes header ≡ bytes.now) }
        ensures fits { IfSome result (λ header. Fits header) }
        ensures inverse { (header : Header) → Fits header → bytes.now ≡ header_bytes header → result ≡ Some header }
    {
        let [
            b'H',
            b'S',
            kind,
            control,
            a,
            b,
            c,
            d,
            e,
            f,
            g,
            h,
            i,
            j,
            k,
            l,
        ] = *bytes
        else {
            return None;
        };
        Some(Header {
            kind,
            control,
            parameter: u32::from_be_bytes([a, b, c, d]),
            length: u64::from_be_bytes([e, f, g, h, i, j, k, l]),
        })
    }

    /// The sixteen bytes of the header.
    pub fn bytes(self) -> [u8; 16]
        ensures { result ≡ header_bytes self }
    {
        let [a, b, c, d] = self.parameter.to_be_bytes();
        let [e, f, g, h, i, j, k, l] = self.length.to_be_bytes();
        [
            b'H',
            b'S',
            self.kind,
            self.control,
            a,
            b,
            c,
            d,
            e,
            f,
            g,
            h,
            i,
            j,
            k,
            l,
        ]
    }

    /// Returns the message type, or `None` where its code is undefined.
    pub fn message_type(self) -> Option<MessageType>
        ensures { result ≡ type_of self.kind }
    {
        MessageType::of(self.kind)
    }
}

//! Frames of HiSLIP, as the clients of tests send and expect them: they know nothing of the crate under test.

/// Returns the header of a frame (IVI-6.1): its type, control code, parameter, and the length of its payload.
pub fn header(kind: u8, control: u8, parameter: u32, length: u64) -> [u8; 16] {
    let [p, q, r, s] = parameter.to_be_bytes();
    let [a, b, c, d, e, f, g, h] = length.to_be_bytes();
    [
        0x48, 0x53, kind, control, p, q, r, s, a, b, c, d, e, f, g, h,
    ]
}

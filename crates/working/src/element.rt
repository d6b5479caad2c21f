//! A probe element that counts in a reading.

/// Its height in tenths of a millimetre, and its temperature in hundredths of a °C.
#[derive(Clone, Copy, PartialEq, Eq, Default, Debug)]
pub struct CountingElement {
    pub height: u32,
    pub hundredths: i32,
}

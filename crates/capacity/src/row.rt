//! A row of a strapped survey.

/// A height in tenths of a millimetre, and the whole litres that the tank holds up to it.
#[derive(Clone, Copy, PartialEq, Eq, Debug)]
pub struct Row {
    pub height: u32,
    pub litres: u32,
}

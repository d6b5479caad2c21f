//! The rules of the three API product groups, over one table of constants.
pub mod answer;
pub mod line;

/// A product group.
#[derive(Clone, Copy, PartialEq, Eq, Debug)]
pub enum ApiRule {
    Crude,
    Products,
    Lubricants,
}

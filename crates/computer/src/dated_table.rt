//! A capacity table with the date of its survey.

/// The two come together and are replaced together. The date is YYYYMMDD; the calendar is not checked.
#[derive(Drop)]
pub struct DatedTable<T> {
    pub table: T,
    pub date: u32,
}

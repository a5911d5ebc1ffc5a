// What a member is, where a value of one type is asked for.

/// A member of a JSON object, where a value of one type is asked for.
#[derive(Debug, Drop, PartialEq)]
pub enum Field<T> {
    /// It isn't there, or it is null.
    Absent,
    /// It is there, isn't null, and has another type.
    Wrong,
    /// It has this value.
    Here(T),
}

//! The statuses that calls return.

/// The outcome of a call: `Ok`, or the reason why it is not. A call returns it to C as the number given here. Where Git
/// stops, it returns the number of a [`Why`](config_file::Why), which none of these has.
#[derive(Clone, Copy)]
pub enum Status {
    /// The call has put its result.
    Ok = 0,
    /// The text has no value, or the path cannot be interpolated.
    Refused = 1,
    /// The product of an integer does not fit `i64`.
    Overflow = 2,
    /// No text reads to a color.
    NoText = 3,
    /// The colors have more than two names together.
    TooManyNames = 4,
    /// No entry has the name or the key, or no section has the name.
    Absent = 5,
    /// No kind has this number.
    UnknownKind = 6,
    /// No fault has this number.
    UnknownFault = 7,
    /// No suffix has this number.
    BadSuffix = 8,
    /// The struct represents no name.
    BadName = 9,
    /// A flag is neither 0 nor 1.
    BadFlag = 10,
    /// The numbers of a walk are not those of one.
    BadLengths = 12,
    /// The buffer is shorter than the text.
    ShortBuffer = 13,
    /// Memory was refused, or the text of a path is longer than a block of memory can be.
    NoMemory = 14,
    /// The entry includes no file.
    NoInclude = 17,
    /// No depth of colors has this number.
    BadDepth = 21,
    /// `GIT_CONFIG_COUNT` is no number.
    BadCount = 22,
    /// `GIT_CONFIG_COUNT` is larger than 2147483647.
    TooManySettings = 23,
    /// There is no `GIT_CONFIG_KEY_n` for a number below `GIT_CONFIG_COUNT`.
    MissingKey = 24,
    /// There is no `GIT_CONFIG_VALUE_n` for such a number.
    MissingValue = 25,
    /// `GIT_CONFIG_PARAMETERS` has something else than quoted texts, `=` and white space.
    BadParameters = 26,
    /// A text of `GIT_CONFIG_PARAMETERS` is empty, or begins with `=`.
    NoKey = 27,
    /// The key of a setting of a command is empty.
    EmptyKey = 28,
    /// The key has no section.
    NoSection = 29,
    /// The key ends with a dot.
    NoKeyName = 30,
    /// The key has a byte that is not allowed there.
    BadKey = 31,
    /// The key has a line feed.
    KeyLineFeed = 32,
    /// The value has a NUL.
    BadValue = 33,
    /// No header can have the section.
    BadSection = 34,
    /// Several entries have the key.
    Several = 35,
    /// A search needs a fact that it was not told.
    Asks = 37,
    /// No call returns this: a search takes as many facts as there is memory for. The number stays taken.
    TooManyFacts = 38,
}

//! What is wrong with a key of a file. Used by `fault`, `values` and all files here that read a table or a list.
use std::fmt;

/// What is wrong with a key.
#[derive(Clone, Copy, Debug, PartialEq, Eq)]
pub enum Why {
    /// The table has to have the key.
    Missing,
    /// No table of this kind has such a key.
    NoSuchKey,
    NotText,
    NotNumber,
    NotFlag,
    NotList,
    NotTable,
    TooShort { bytes: usize, least: usize },
    TooLong { bytes: usize, most: usize },
    OutOfRange { value: i64, least: u32, most: u32 },
    /// A modulus other than 8 and 128.
    NoModulus { value: u32 },
    TooMany { count: usize, most: usize },
    /// A name of a port has a byte other than letters, digits, `-`, `.` and `_`.
    BadByte,
    NoCall,
    NoAlias,
    NoPort,
    /// A beacon comes from a call that no member on its port has.
    NoMember,
    /// Another port, or another member, has that name before.
    Twice,
    /// The item of that number, from 1, of a list.
    Item { number: usize, fault: ItemFault },
}

/// What is wrong with an item of a list.
#[derive(Clone, Copy, Debug, PartialEq, Eq)]
pub enum ItemFault {
    NotText,
    NoCall,
    NoAlias,
    NoPort,
    NoQuality,
    Twice,
    /// Not `CALL REPEATER` or `CALL REPEATER REPEATER`.
    NotVia,
    /// Not `CALL QUALITY`.
    NotQuality,
    /// Not `DESTINATION ALIAS NEIGHBOUR QUALITY`.
    NotLock,
    /// A route to the node itself.
    Own,
    /// A quality below `minq`.
    TooLow { least: u32 },
}

impl fmt::Display for ItemFault {
    ghost use Rattle.std.specs.Prelude.{Some};
    ghost use Rattle.station_file.specs.Told.{item_told};

    ghost output = { λ fault. Some (item_told fault) };

    fn fmt<W: fmt::Write>(&self, f: &mut fmt::Formatter<W>) -> fmt::Result {
        match self {
            ItemFault::NotText => f.write_str("not a text"),
            ItemFault::NoCall => f.write_str("no call"),
            ItemFault::NoAlias => f.write_str("no alias"),
            ItemFault::NoPort => f.write_str("no such port"),
            ItemFault::NoQuality => f.write_str("no quality from 0 to 255"),
            ItemFault::Twice => f.write_str("stands twice"),
            ItemFault::NotVia => f.write_str("not CALL REPEATER [REPEATER]"),
            ItemFault::NotQuality => f.write_str("not CALL QUALITY"),
            ItemFault::NotLock => f.write_str("not DESTINATION ALIAS NEIGHBOUR QUALITY"),
            ItemFault::Own => f.write_str("a route to the node itself"),
            ItemFault::TooLow { least } => write!(f, "a quality below minq, which is {least}"),
        }
    }
}

impl fmt::Display for Why {
    ghost use Rattle.std.specs.Prelude.{Some};
    ghost use Rattle.station_file.specs.Told.{why_told};

    ghost output = { λ why. Some (why_told why) };

    fn fmt<W: fmt::Write>(&self, f: &mut fmt::Formatter<W>) -> fmt::Result {
        match self {
            Why::Missing => f.write_str("must be there"),
            Why::NoSuchKey => f.write_str("no such key"),
            Why::NotText => f.write_str("not a text"),
            Why::NotNumber => f.write_str("not a whole number"),
            Why::NotFlag => f.write_str("not true or false"),
            Why::NotList => f.write_str("not a list"),
            Why::NotTable => f.write_str("not a table"),
            Why::TooShort { bytes, least } => write!(f, "{bytes} bytes, at least {least}"),
            Why::TooLong { bytes, most } => write!(f, "{bytes} bytes, at most {most}"),
            Why::OutOfRange { value, least, most } => write!(f, "{value}, from {least} to {most}"),
            Why::NoModulus { value } => write!(f, "{value}, not 8 or 128"),
            Why::TooMany { count, most } => write!(f, "{count}, at most {most}"),
            Why::BadByte => f.write_str("a byte outside a-z A-Z 0-9 - . _"),
            Why::NoCall => f.write_str("no call"),
            Why::NoAlias => f.write_str("no alias"),
            Why::NoPort => f.write_str("no such port"),
            Why::NoMember => f.write_str("no member on that port"),
            Why::Twice => f.write_str("stands twice"),
            Why::Item { number, fault } => write!(f, "item {number}: {fault}"),
        }
    }
}

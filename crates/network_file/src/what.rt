//! Why lines of a network file are bad. Used by most files here, and by the replay.
use std::fmt;

/// Why a line of a network file is bad.
#[derive(Clone, Copy, Debug, PartialEq, Eq)]
pub enum What {
    /// The line is the 20,001st.
    Many,
    /// A byte outside 0x20 to 0x7E.
    Char,
    /// The first word is no kind of line.
    Word,
    /// A declaration after a line that is none, or a version line that isn't the first.
    Late,
    /// The line has too many words for its kind, or too few.
    Count,
    /// A word isn't a decimal number in the range of its place.
    Number,
    /// A word isn't a call.
    Call,
    /// A word isn't an alias.
    Alias,
    /// A number of no declared node.
    Node,
    /// A node, a call or a key that was there before.
    Twice,
    /// A word is no key.
    Key,
    /// A number that the key doesn't allow, a version that isn't known, or a node's seventeenth way over repeaters.
    Value,
}

impl fmt::Display for What {
    ghost use Rattle.std.specs.Prelude.{Some};
    ghost use Rattle.network_file.specs.Networks.{word_for};

    ghost output = { λ what. Some (word_for what) };

    fn fmt<W: fmt::Write>(&self, f: &mut fmt::Formatter<W>) -> fmt::Result {
        f.write_str(match self {
            What::Many => "many",
            What::Char => "char",
            What::Word => "word",
            What::Late => "late",
            What::Count => "count",
            What::Number => "number",
            What::Call => "call",
            What::Alias => "alias",
            What::Node => "node",
            What::Twice => "twice",
            What::Key => "key",
            What::Value => "value",
        })
    }
}

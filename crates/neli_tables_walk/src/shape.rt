//! What a payload is.

/// A list of attributes, after a structure.
#[derive(Clone, Copy, Debug, PartialEq, Eq)]
pub struct Nest {
    /// The place of the set of the attributes.
    pub set: usize,
    /// The place of the structure before them, if there is one.
    pub after: Option<usize>,
    /// Its size in bytes, 0 where there is none. The attributes begin at the next multiple of four.
    pub header: usize,
}

impl Nest {
    /// A nest of no table's.
    pub const NONE: Nest = Nest {
        set: 0,
        after: None,
        header: 0,
    };
}

/// What a payload is.
#[derive(Clone, Copy, Debug, PartialEq, Eq)]
pub enum Shape {
    /// What the options of the line at this place say: an attribute's row, or the case that its
    /// choice picks.
    Row(usize),
    /// Attributes; the walk gives them next.
    Nest(Nest),
    /// Structures that state their length in their first two bytes, each with attributes; the walk
    /// gives them next.
    Hops(Nest),
    /// Bytes: there is no row, or a choice picks none.
    Bytes,
    /// Bytes: less than the structure that this nest begins with.
    Short(Nest),
    /// Bytes: a nest in as many lists as a walk enters.
    Deep(Nest),
}

//! What a walk gives.

ghost use Rattle.std.specs.Prelude.{◌≡◌, ◌<◌, ◌≤◌, [], ◌∷◌, ◌++◌, length};
ghost use Rattle.neli_tables_walk.specs.Visited.{parts_of};

use crate::Shape;
use crate::level::MAX_DEPTH;
use arrayvec::ArrayVec;
use neli_attr::AttrType;
use neli_wire::DeError;

/// A part of a path: an attribute by its number and by the place of its row, or a hop.
#[derive(Clone, Copy, Debug, Default, PartialEq, Eq)]
pub struct Step {
    /// The number of the attribute; `None` of a hop.
    pub number: Option<u16>,
    /// The place of its row, if it has one.
    pub row: Option<usize>,
}

/// Where an attribute stands: the nests and hops that it is in from the outside in, and itself.
#[derive(Debug, Drop)]
pub struct Path {
    pub(crate) steps: ArrayVec<Step, MAX_DEPTH>,
}

impl Path {
    /// The attributes and hops from the outside in.
    pub fn steps(&self) -> &[Step]
        ensures { result.now ≡ self.now.steps.items }
    {
        self.steps.as_slice()
    }

    /// The path to an attribute or a hop in what this path leads to. It has room: this has fewer steps than lists can
    /// be open.
    pub fn then(&self, step: Step) -> Path
        requires { length self.now.steps.items < MAX_DEPTH }
        ensures { result.steps.items ≡ self.now.steps.items ++ step ∷ [] }
    {
        let mut path = path_of(self.steps());
        path.steps.push(step);
        path
    }
}

/// The path of these steps.
fn path_of(all: &[Step]) -> Path
    requires { length all.now ≤ MAX_DEPTH }
    ensures { result.steps.items ≡ all.now }
{
    let mut steps = ArrayVec::new();
    for step in all {
        steps.push(*step);
    }
    Path { steps }
}

impl Default for Path {
    ghost is_default = { λ path. path.steps.items ≡ [] };

    /// The path to the body itself.
    fn default() -> Path {
        Path {
            steps: ArrayVec::new(),
        }
    }
}

/// An attribute or a hop, and what its payload is.
#[derive(Clone, Copy, Debug)]
pub struct Found<'b> {
    /// The type field of an attribute, with its two flags; `None` of a hop.
    pub kind: Option<AttrType<u16>>,
    /// Its payload: of a hop the whole, its structure too. It lives as long as the bytes that are
    /// walked.
    pub payload: &'b [u8],
    /// What the payload is.
    pub shape: Shape,
}

/// What is left of a list behind its attributes.
#[derive(Debug, Drop)]
pub struct Rest<'b> {
    /// The bytes.
    pub bytes: &'b [u8],
    /// Why they begin with no attribute.
    pub error: DeError,
}

/// An attribute or a hop and where it stands; or what is left behind those of a list, and the nest
/// that this list is in.
#[derive(Debug, Drop)]
pub struct Item<'b> {
    /// Where it stands.
    pub path: Path,
    /// What stands there.
    pub content: Result<Found<'b>, Rest<'b>>,
}

/// An item without its path.
#[derive(Debug, Drop)]
pub struct Visit<'b> {
    /// How many lists it stands in, each in a nest of the one before.
    pub lists: usize,
    /// The attribute or the hop itself; `None` where it is what is left behind those of a list.
    pub step: Option<Step>,
    /// What stands there.
    pub content: Result<Found<'b>, Rest<'b>>,
}

impl Visit<'_> {
    /// How many parts its path has.
    pub(crate) fn parts(&self) -> usize
        ensures { result ≡ parts_of self.now }
    {
        match self.content {
            Ok(_) => self.lists,
            Err(_) => self.lists.saturating_sub(1),
        }
    }
}

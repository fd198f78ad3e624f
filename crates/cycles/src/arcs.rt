// Arcs, each from a vertex to a vertex.

/// An arc from a vertex to a vertex, both numbered from 0 on. One from a vertex to itself is on no cycle of three vertices or more,
/// so it does nothing.
#[derive(Clone, Copy, PartialEq, Eq, Debug)]
pub struct Arc {
    pub from: u8,
    pub to: u8,
}

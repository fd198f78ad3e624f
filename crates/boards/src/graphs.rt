// Graphs.
use cycles::Arc;
use std::alloc::{AllocError, Global};

// Vertices 0 to 3 in a ring, one way round and then the other.
pub(crate) const RING: [Arc; 8] = [
    Arc { from: 0, to: 1 },
    Arc { from: 1, to: 2 },
    Arc { from: 2, to: 3 },
    Arc { from: 3, to: 0 },
    Arc { from: 1, to: 0 },
    Arc { from: 2, to: 1 },
    Arc { from: 3, to: 2 },
    Arc { from: 0, to: 3 },
];

// The same, some of it twice, with arcs from a vertex to itself.
pub(crate) const RING_AND_MORE: [Arc; 12] = [
    Arc { from: 2, to: 2 },
    Arc { from: 0, to: 1 },
    Arc { from: 1, to: 2 },
    Arc { from: 0, to: 1 },
    Arc { from: 2, to: 3 },
    Arc { from: 3, to: 0 },
    Arc { from: 1, to: 0 },
    Arc { from: 2, to: 1 },
    Arc { from: 3, to: 2 },
    Arc { from: 3, to: 2 },
    Arc { from: 0, to: 3 },
    Arc { from: 0, to: 0 },
];

// Two triangles that no edge joins.
pub(crate) const TRIANGLES: [(u8, u8); 6] = [(0, 1), (1, 2), (2, 0), (3, 4), (4, 5), (5, 3)];

// The edges of the Petersen graph: a ring, a star, and spokes between them.
pub(crate) const PETERSEN: [(u8, u8); 15] = [
    (0, 1),
    (1, 2),
    (2, 3),
    (3, 4),
    (4, 0),
    (0, 5),
    (1, 6),
    (2, 7),
    (3, 8),
    (4, 9),
    (5, 7),
    (6, 8),
    (7, 9),
    (8, 5),
    (9, 6),
];

// The edges of the cube, between corners that differ in one bit.
pub(crate) const CUBE: [(u8, u8); 12] = [
    (0, 1),
    (0, 2),
    (0, 4),
    (1, 3),
    (1, 5),
    (2, 3),
    (2, 6),
    (3, 7),
    (4, 5),
    (4, 6),
    (5, 7),
    (6, 7),
];

// Arcs both ways along edges.
pub(crate) fn both_ways(alloc: Global, edges: &[(u8, u8)]) -> Result<Vec<Arc>, AllocError> {
    let mut arcs = Vec::new(alloc);
    for (from, to) in edges {
        arcs.push(Arc {
            from: *from,
            to: *to,
        })?;
        arcs.push(Arc {
            from: *to,
            to: *from,
        })?;
    }
    Ok(arcs)
}

// An arc from each vertex to each, itself too.
pub(crate) fn complete(alloc: Global, vertices: u8) -> Result<Vec<Arc>, AllocError> {
    let mut arcs = Vec::new(alloc);
    for from in 0..vertices {
        for to in 0..vertices {
            arcs.push(Arc { from, to })?;
        }
    }
    Ok(arcs)
}

// Those of some arcs that join the first vertices, so many of them.
pub(crate) fn within(alloc: Global, arcs: &[Arc], vertices: u8) -> Result<Vec<Arc>, AllocError> {
    let mut inner = Vec::new(alloc);
    for arc in arcs {
        if arc.from < vertices && arc.to < vertices {
            inner.push(*arc)?;
        }
    }
    Ok(inner)
}

// Rings through all vertices, which are Hamiltonian cycles: in the small graphs whole, in larger ones counted.
use crate::graphs::{CUBE, PETERSEN, RING, RING_AND_MORE, TRIANGLES, both_ways, complete, within};
use crate::showing::{MANY, Names, show_counted, show_whole};
use cycles::{Arc, Cycles};

const NAMES: Names = Names {
    puzzle: "cycles",
    entries: "entries",
};

pub(crate) fn try_graphs(rt: &HostRuntime) -> anyhow::Result<()> {
    let on_three = complete(rt.alloc(), 3)?;
    try_graph(rt, 3, &[])?;
    try_graph(rt, 3, on_three.as_slice())?;
    let on_four = complete(rt.alloc(), 4)?;
    try_graph(rt, 4, on_four.as_slice())?;
    try_graph(rt, 4, &RING[..4])?;
    try_graph(rt, 4, &RING)?;
    try_graph(rt, 4, &RING_AND_MORE)?;
    let on_five = complete(rt.alloc(), 5)?;
    count_graph(rt, 5, on_five.as_slice())?;
    let on_six = complete(rt.alloc(), 6)?;
    count_graph(rt, 6, on_six.as_slice())?;
    let triangles = both_ways(rt.alloc(), &TRIANGLES)?;
    count_graph(rt, 6, triangles.as_slice())?;
    let petersen = both_ways(rt.alloc(), &PETERSEN)?;
    count_graph(rt, 10, petersen.as_slice())?;
    let without_last = within(rt.alloc(), petersen.as_slice(), 9)?;
    count_graph(rt, 9, without_last.as_slice())?;
    let cube = both_ways(rt.alloc(), &CUBE)?;
    count_graph(rt, 8, cube.as_slice())?;
    count_graph(rt, 10, &[])
}

fn try_graph(rt: &HostRuntime, vertices: usize, arcs: &[Arc]) -> anyhow::Result<()> {
    let mut cycles = Cycles::new();
    cycles.make(vertices, arcs)?;
    show_whole(rt, NAMES, arcs.len(), &cycles)
}

fn count_graph(rt: &HostRuntime, vertices: usize, arcs: &[Arc]) -> anyhow::Result<()> {
    let mut cycles = Cycles::new();
    cycles.make(vertices, arcs)?;
    show_counted(rt, NAMES, arcs.len(), &cycles, MANY)
}

// What leads a tree back over one step.
#[derive(Clone, Copy, Debug)]
pub enum Undo {
    // The tree stays as it is.
    Keep,
    // The link between a and b stands for the two links of a vertex that went.
    Past { vertex: u32, a: u32, b: u32 },
    // A vertex that went hangs at its neighbour.
    Leaf { vertex: u32, neighbour: u32 },
}

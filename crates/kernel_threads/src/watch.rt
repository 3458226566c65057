use sprite_ids::Kernel;

/// Where a worker is.
#[derive(Clone, Copy, Debug, PartialEq, Eq)]
pub enum Point {
    /// Between two turns.
    Turn,
    /// Inside a burst, outside of the turns.
    InBurst,
}

/// What sees where the workers are. It is for tests (this project).
pub trait Watch {
    /// The worker of the kernel is there.
    fn at(&self, kernel: Kernel, point: Point);
}

/// Sees nothing.
#[derive(Clone, Copy, Debug)]
pub struct NoWatch;

impl Watch for NoWatch {
    fn at(&self, _kernel: Kernel, _point: Point) {}
}

ghost use Rattle.wire_bodies.specs.Bodies.{BodiesStay};

/// A law: whatever calls of the wire are made, a remote call that was begun keeps its request, and its number is never given to
/// another one (Welch 1986).
pub fn bodies_stay()
    ensures { BodiesStay }
{}

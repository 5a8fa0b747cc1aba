//! Which steps are possible.
ghost use Rattle.l4_model.specs.Machine.{Machine};
ghost use Rattle.l4_model.specs.World.{World};
ghost use Rattle.l4_audit.specs.Possible.{ListsPossible};

/// A step is listed exactly where it is possible and no tick, and its send has a number that a
/// trace can name, from 1 on in 64 bits. In a world that a history reaches none is listed twice.
pub fn law_possible()
    ensures { (m : Machine) (w : World) → ListsPossible m w }
{}

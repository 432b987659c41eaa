ghost use Rattle.nets.specs.Views.{Ranged};

use crate::Net;

// A net whose numbers lie in their ranges, whose links lead between its stations, and with no stock above its capacity. Its rates do not count yet.
#[derive(Clone, Copy, Debug, PartialEq, Eq)]
pub struct CheckedNet {
    pub net: Net,
    ghost ranged: { ∥ Ranged net ∥₁ },
}

ghost use Rattle.network.specs.Kinds.{by_loss, loss_laws};

use crate::cost::Cost;
use crate::link::Link;
use crate::loss::Loss;

// Takes the greater loss.
impl Cost for Loss {
    ghost kind = { by_loss };

    ghost laws = { loss_laws };

    fn zero() -> Loss {
        Loss { value: 0 }
    }

    fn of_link(link: &Link) -> Loss {
        Loss { value: link.loss }
    }

    fn join(self, other: Loss) -> Loss {
        Loss {
            value: self.value.max(other.value),
        }
    }

    fn at_most(self, other: Loss) -> bool {
        self <= other
    }
}

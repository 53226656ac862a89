// The law of the product.
ghost use Rattle.jcr_law.specs.Lasting.{says_last, says_last_behind, starts_last};
ghost use Rattle.jcr_law.specs.Starting.{proper_starts};
ghost use Rattle.jcr_law.specs.Law.{MayStart, SaysBy};
ghost use Rattle.jcr_law.specs.Makes.{IsAskedAt};

use jcr_trans::SessionScript;
use jr_path::List;
use jr_types::Registry;
use oak_machine::Law;

/// The law of the product, of the node types of a script, how many sessions there were before it,
/// and its sessions with their commands in order. An edit may start where it is due for the
/// session's next command and a plan on the tree at its base (JSR 283, 10.11 Saving); a text may be
/// said where it has one of the causes of `MaySay`; a command asks for the events of `CommandAsks`.
#[derive(Drop)]
pub struct JcrLaw {
    pub types: Registry,
    pub earlier: u32,
    pub sessions: List<SessionScript>,
}

impl Law for JcrLaw {
    ghost may_start = { λ law h s edit marks. MayStart law h s edit marks };

    ghost may_say = { λ law h s i text. SaysBy law h s i text };

    ghost asks = { λ law s i e. IsAskedAt law s i e };

    ghost starts_last = { λ law. starts_last law };

    ghost says_last = { λ law. says_last law };

    ghost says_last_behind = { λ law. says_last_behind law };

    ghost proper = { λ law. proper_starts law };

    ghost writes = { λ law h s edit marks may. may.some };
}

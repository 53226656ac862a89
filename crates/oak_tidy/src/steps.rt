// One step of what tidies documents.
ghost use Rattle.std.specs.Prelude.{◌≡◌, ◌<◌, length};
ghost use Rattle.oak_read.specs.Reading.{IsTable};
ghost use Rattle.oak_tidy.specs.Left.{tidying_left};
ghost use Rattle.oak_tidy.specs.Replies.{all_parts};
ghost use Rattle.oak_tidy.specs.Tidyings.{CanTidy, IfGoing, Tidies};

use crate::asks::answered;
use crate::tidying::{Onward, Tidied, Tidying};
use oak_machine::Events;
use oak_node::NodeMem;
use oak_port::StepOut;
use oak_store::DocTable;
use std::alloc::{AllocError, Global};

/// One step of what tidies documents, for session `s`: what it leaves, and the answer. The memories
/// are those of all cluster nodes. The reply is taken before documents change, and how a task ended
/// is copied before its last step is made; where memory is refused nothing changes.
pub fn tidy(
    alloc: Global,
    table: &mut DocTable,
    memories: &[NodeMem],
    events: &mut Events,
    s: u32,
    tidying: Tidying,
) -> (Tidied, StepOut)
    requires can { CanTidy (length memories.now) tidying }
    requires table { IsTable table.old.documents }
    ensures made { Tidies s (all_parts table.old memories.now events.old.list) tidying
        (all_parts table.new memories.now events.new.list) result.0 result.1 }
    ensures can { IfGoing result.0 (λ next. CanTidy (length memories.now) next) }
    ensures lowers { IfGoing result.0
        (λ next. tidying_left table.new next < tidying_left table.old tidying) }
    ensures places { events.new.places ≡ events.old.places }
    ensures order { IsTable table.new.documents }
{
    let kind = tidying.due();
    match answered(alloc, table, memories, events, s, tidying) {
        Ok(Onward::Goes(tidying)) => (Tidied::Going(tidying), StepOut::Went(kind)),
        Ok(Onward::Ends(end, told)) => (Tidied::Told(told), StepOut::Ready(end)),
        Err(AllocError) => (Tidied::Gone, StepOut::Memory),
    }
}

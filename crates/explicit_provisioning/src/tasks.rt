//! Tasks of provisioning, which other conversations may precede and follow.
use crate::following::Leads;
use control_sets::TaskList;
use conversations::{Conversation, Next};

impl Leads for TaskList {
    ghost use Rattle.std.specs.Prelude.{is_none};
    ghost use Rattle.explicit_provisioning.specs.ExplicitProcedures.{tasks_over};

    ghost passes = { is_none };

    ghost over = { tasks_over };

    fn is_over(&self) -> bool {
        matches!(self.next(), Next::End(None))
    }
}

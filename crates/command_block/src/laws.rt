//! What holds of attempts, whatever a module answers or refuses. Each function is a theorem: its contract says it, and its body is
//! empty.
ghost use Rattle.std.specs.Prelude.{◌≡◌, ◌≤◌, ◌+◌, ◌*◌, None, length};
ghost use Rattle.command_block.specs.declared.attempt.Timing.{Timing};
ghost use Rattle.command_block.specs.declared.message.Message.{Message};
ghost use Rattle.command_block.specs.declared.outcome.Outcome.TheVariants.{Unsent};
ghost use Rattle.command_block.specs.AttemptEvents.{EachIsWanted, attempt_after};
ghost use Rattle.command_block.specs.KnownBlocks.{IsTriggeredOver};
ghost use Rattle.command_block.specs.Phases.{known};
ghost use Rattle.command_block.specs.Rounds.{count_on_page, count_refused};
ghost use Rattle.conversations.specs.Events.{Events, steps_of};

/// The id is stored only where each byte of the message behind it was stored, or read back as it is, since the newest refusal. So no
/// module is told to carry out what a reset left of a message, if it refused a transaction since.
pub fn an_id_follows_the_whole_message()
    ensures { (message : Message) (timing : Timing) (own : Events) → EachIsWanted message timing own → IsTriggeredOver message (steps_of own) }
{}

/// As long as it goes on and the id isn't stored, an attempt makes 16 operations on page 9Fh at most, and 18 more for each refusal. So where
/// a bus refuses no more, the message is sent.
pub fn refusals_cost_few_operations()
    ensures { (message : Message) (timing : Timing) (own : Events) → length message.body.items ≤ 120 → EachIsWanted message timing own →
        (attempt_after message timing own).outcome ≡ None → known (attempt_after message timing own) ≡ Unsent →
        count_on_page (steps_of own) ≤ 18 * count_refused (steps_of own) + 16 }
{}

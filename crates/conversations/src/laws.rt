//! What holds of conversations, over all histories. Each function is a theorem: its contract says it, and its body is empty.
ghost use Rattle.std.specs.Prelude.{◌≡◌, ◌↔◌, ◌<◌, ◌≤◌, ◌+◌, ◌-◌, ◌*◌, ◌^◌, ℕ, Bool, Option, Some, true, false};
ghost use Rattle.bus_model.specs.declared.operation.Op.{Op};
ghost use Rattle.paged_memory.specs.declared.page_addressing.PageAddressing.{PageAddressing};
ghost use Rattle.conversations.specs.declared.next.Next.{Next};
ghost use Rattle.conversations.specs.declared.next.Next.TheVariants.{Do, End};
ghost use Rattle.conversations.specs.declared.pausing.Patience.{Patience};
ghost use Rattle.conversations.specs.declared.pausing.Timed.TheVariants.{Overdue};
ghost use Rattle.conversations.specs.Events.{Events, steps_of};
ghost use Rattle.conversations.specs.Pauses.{AddsPauses, AreMade, AreSpaced, next_pausing, paused_for};
ghost use Rattle.conversations.specs.Selecting.{AddsSelections, ConfirmsStores};
ghost use Rattle.conversations.specs.Watching.{AddsLooks, EachLooks, ShowsLeft, after_watching, is_look, look_at, next_watching, shown};
ghost use Rattle.conversations.specs.declared.watching.Look.{Look};
ghost use Rattle.conversations.specs.declared.watching.Look.TheVariants.{Due, Left};
ghost use Rattle.conversations.specs.declared.watching.Watched.TheVariants as watched;
ghost use Rattle.conversations.specs.declared.watching.Watching.{Watching};
ghost use Rattle.bus_model.specs.declared.operation.Reply.{Reply};

/// Who doubts stores nothing after a refusal before the page that is needed was read back, but for the selection of that page.
pub fn no_store_follows_a_refusal_unconfirmed()
    ensures { (may : Bool) (addressing : PageAddressing) (needs : Events → Option ℕ) (own events : Events) →
        AddsSelections true may addressing needs own events → ConfirmsStores may addressing needs events }
{}

/// Between a fruitless transaction and the next one there is a wait, and no wait is shorter than the pause.
pub fn polls_are_spaced()
    ensures { (patience : Patience) (own events : Events) (wanted : Option Op) (due : Bool) (idle : ℕ) →
        AddsPauses patience own events wanted due idle → AreSpaced patience.pause events }
{}

/// A conversation is overdue exactly where a pause is due, and those since something was done lasted for longer than may be; so never
/// with the greatest limit.
pub fn deadlines_end_conversations()
    ensures exactly { (due : Bool) (idle : ℕ) (patience : Patience) (wanted : Next (Unit {0})) →
        next_pausing due idle patience wanted ≡ End Overdue ↔ ((op : Op) × (wanted ≡ Do op) × (due ≡ true) × (patience.limit < idle)) }
    ensures never { (patience : Patience) (own events : Events) (wanted : Option Op) (due : Bool) (idle : ℕ) →
        AddsPauses patience own events wanted due idle → patience.limit ≡ 2 ^ 32 - 1 → idle ≤ patience.limit }
{}

/// If a conversation within neither waits nor is told a word, the pauses of its fruitless transactions last no longer than the limit and
/// two more of them. So no more transactions are fruitless in a row, whatever the bus answers.
pub fn fruitless_transactions_are_few()
    ensures { (patience : Patience) (own events : Events) (wanted : Option Op) (due : Bool) (idle : ℕ) →
        AddsPauses patience own events wanted due idle → AreMade own → patience.limit < 2 ^ 32 - 1 →
        paused_for patience.pause wanted (steps_of events) ≤ patience.limit + 2 * patience.pause }
{}

/// A conversation that looks at the module's state makes no transaction after a wait before it was shown in ModuleReady. Where it ends since
/// the module left that state, the newest transaction shows the other one; and where a look shows another one, it ends.
pub fn looks_follow_waits()
    ensures looks { (own events : Events) (look : Look) (wanted : Option Op) → AddsLooks true own events look wanted → EachLooks events }
    ensures left { (watches : Bool) (own events : Events) (code : ℕ) (wanted : Option Op) →
        AddsLooks watches own events (Left code) wanted → ShowsLeft code events }
    ensures ends { (watching : Watching (Unit {0})) (op : Op) (reply : Reply) (code : ℕ) → watching.look ≡ Due → is_look op ≡ false →
        shown reply ≡ Some code → look_at code ≡ Left code →
        next_watching {E = Unit {0}} (after_watching {E = Unit {0}} (λ c. Do op) (λ c r. c) watching reply).look (Do op) ≡ End (watched.Left code) }
    ensures spaced { (watches : Bool) (pause : ℕ) (own events : Events) (look : Look) (wanted : Option Op) →
        AddsLooks watches own events look wanted → AreSpaced pause own → AreSpaced pause events }
{}

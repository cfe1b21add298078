//! Laws of the orders that keep what is directly before what: what is true of every such order of
//! every recorded day.
ghost use Rattle.std.specs.Prelude.{◌≡◌, true, List, is_some};
ghost use Rattle.std.specs.List.{AllZip};
ghost use Rattle.venue_rows.specs.Rows.{Configuration};
ghost use Rattle.day_weaving.specs.DayForm as form;
ghost use Rattle.day_weaving.specs.DayOrder as spec;
ghost use Rattle.day_weaving.specs.OrderLaws as order;
ghost use Rattle.recorded_days.specs.Records as recorded;
ghost use Rattle.recorded_days.specs.Records.{ActionRef, RecordedDay};
ghost use Rattle.day_weaving.specs.Weaving as weaving;
ghost use Rattle.day_weaving.specs.declared.weave_plan.Slot.{Slot};
ghost use Rattle.day_weaving.specs.declared.weaving.WeaveFault.{WeaveFault};
ghost use Rattle.step_replay.specs.declared.steps.Step.{Step};

/// An order that keeps what is directly before what names each action of the day exactly once
/// (`once`).
///
/// Where the orders of the desks and rooms name each action exactly once too, as they do on each
/// day that is woven, no action stands in it before one that is directly before it (`before`). So
/// where of some actions each has another of them directly before it, there is no such order
/// (`cycle`).
pub fn orders_keep_what_is_before()
    ensures once { (day : RecordedDay) (slots : List Slot) → spec.KeepsOrder day slots
        → (action : ActionRef) → is_some (recorded.action_in day action) ≡ true
        → order.StandsOnce slots action }
    ensures before { (day : RecordedDay) (slots : List Slot) → form.AreNamedOnce day
        → spec.KeepsOrder day slots → (one other : ActionRef)
        → spec.IsDirectlyBefore day one other → order.ComesBefore slots one other }
    ensures cycle { (day : RecordedDay) (slots : List Slot) (actions : List ActionRef)
        → form.AreNamedOnce day → spec.IsCycle day actions → spec.KeepsOrder day slots → ⊥ }
{}

/// Where the orders of the desks and rooms name each action exactly once, a list of actions has
/// each in its turn, as `weave` counts them, exactly where it has each action of the day once,
/// after all that are directly before it (`kept`, `counted`).
///
/// So the steps of a day that is woven are its actions in such an order (`woven`), and where of
/// some actions each has another of them directly before it, there is no such order (`cycle`).
pub fn orders_are_kept_by_counting()
    ensures kept { (day : RecordedDay) (slots : List Slot) → form.AreNamedOnce day
        → spec.KeepsOrder day slots → order.IsOrder day slots }
    ensures counted { (day : RecordedDay) (slots : List Slot) → form.AreNamedOnce day
        → order.IsOrder day slots → spec.KeepsOrder day slots }
    ensures woven { (config : Configuration) (day : RecordedDay) (steps : List Step)
        → weaving.AreWoven config day steps
        → (slots : List Slot) × order.IsOrder day slots
        × AllZip (weaving.IsStepOf day) slots steps }
    ensures cycle { (day : RecordedDay) (slots : List Slot) (actions : List ActionRef)
        → form.AreNamedOnce day → spec.IsCycle day actions → order.IsOrder day slots → ⊥ }
{}

/// A record that is of a day of a venue is not malformed, so no malformed record is woven.
pub fn well_formed_days_are_not_malformed()
    ensures { (config : Configuration) (day : RecordedDay) → form.IsWellFormed config day
        → form.IsMalformed config day → ⊥ }
{}

/// Where a day of a venue has an order that is kept, what is true of a fault of its weaving is that
/// a firm differs, or that memory was refused.
///
/// So such a day is woven, or has one of these faults; it is never called malformed or a cycle.
pub fn days_with_an_order_are_no_cycle()
    ensures { (config : Configuration) (day : RecordedDay) (slots : List Slot) (fault : WeaveFault)
        → form.IsWellFormed config day → spec.KeepsOrder day slots
        → weaving.FaultIsTrue config day fault → weaving.IsDifferentOrMemory fault }
{}

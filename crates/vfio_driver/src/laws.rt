//! What the machines ask, know and answer, apart from how they do it.
ghost use Rattle.std.specs.Prelude.{◌≡◌, ◌≤◌, ◌⊎◌, ℕ, List, ◌∷◌, ◌↔◌, true, None, Some};
ghost use Rattle.std.specs.Int.{bit_at};
ghost use Rattle.byte_fields.specs.Places.{le64};
ghost use Rattle.admin_wire.specs.declared.done.DoneParts.{DoneParts};
ghost use Rattle.group_calls.specs.declared.ask.Ask.{Ask};
ghost use Rattle.group_calls.specs.declared.ask.Told.{Told};
ghost use Rattle.group_calls.specs.Asks.{Exchange, AnswersAsk};
ghost use Rattle.io_bar.specs.declared.access.Route.{Route};
ghost use Rattle.vfio_driver.specs.declared.access.Known.{Known};
ghost use Rattle.vfio_driver.specs.declared.bring_stage.BringCommand.{BringCommand};
ghost use Rattle.vfio_driver.specs.declared.bring_stage.BringStage.{BringStage};
ghost use Rattle.vfio_driver.specs.Access.{started};
ghost use Rattle.vfio_driver.specs.Bring.{next_ask, after, brought_by};
ghost use Rattle.vfio_driver.specs.BringGrammar.{IsAnsweredBringUp, BeginsBringUp};
ghost use Rattle.vfio_driver.specs.BringRuns.{command_at, IsWholeRun as IsWholeBringUp, IsOpenRun as IsOpenBringUp};
ghost use Rattle.vfio_driver.specs.Brought.{has_opcodes, brought_after, GivesUnfit, GivesReady, GoesOn as BringsOn};
ghost use Rattle.vfio_driver.specs.Grammar.{IsAnsweredAccess, BeginsAccess};
ghost use Rattle.vfio_driver.specs.Heard.{Heard, answered, asks_of, greatest_floor, is_known_gone, answer_heard, reads_by, GivesOnes, GivesFull, GivesNoMemory, GivesData, GivesWritten, GoesOn, AreAtFloors};
ghost use Rattle.vfio_driver.specs.Runs.{after_all, IsRun, IsWholeRun, IsOpenRun};

use crate::access::{Answer, Started};
use crate::bring::BringUp;
use crate::bring_stage::Brought;
use crate::driver::Driver;

/// What `Driver` asks until an access is answered is that access by the grammar, and what it has asked before is the
/// beginning of it, each ask under the greatest floor that was known before it, whatever the driver learns between them.
/// The machine asks every access that the grammar has with these floors.
pub fn the_machine_asks_what_the_grammar_has()
    ensures whole { (guest queue : ℕ) (known : Known) (route : Route) (heard : List Heard)
        → IsWholeRun guest known queue route heard ↔ (IsAnsweredAccess guest known.gone queue route (asks_of heard) × AreAtFloors known.floor heard) }
    ensures begun { (guest queue : ℕ) (known : Known) (route : Route) (heard : List Heard)
        → IsOpenRun guest known queue route heard ↔ (BeginsAccess guest known.gone queue route (asks_of heard) × AreAtFloors known.floor heard) }
{}

/// What `BringUp` asks until it is over is bring-up by the grammar, and what it has asked before is the beginning of it.
/// The machine asks every bring-up that the grammar has.
pub fn bring_up_asks_what_the_grammar_has()
    ensures whole { (member : ℕ) (xs : List Exchange) → IsWholeBringUp member xs ↔ IsAnsweredBringUp member xs }
    ensures begun { (member : ℕ) (xs : List Exchange) → IsOpenBringUp member xs ↔ BeginsBringUp member xs }
{}

/// What `Driver` knows is the greatest floor that it was told, and whether it was told that the member is gone; and it
/// answers by the latest reply.
pub fn a_driver_knows_what_it_was_told()
    ensures floor { (guest queue : ℕ) (known : Known) (route : Route) (heard : List Heard)
        → IsRun guest known queue route heard → (after_all guest known queue route heard).known.floor ≡ greatest_floor known.floor heard }
    ensures gone { (guest queue : ℕ) (known : Known) (route : Route) (heard : List Heard)
        → IsRun guest known queue route heard → (after_all guest known queue route heard).known.gone ≡ is_known_gone known.gone heard }
    ensures answer { (guest queue : ℕ) (known : Known) (route : Route) (heard : List Heard)
        → IsRun guest known queue route heard → (after_all guest known queue route heard).answer ≡ answer_heard queue route (asks_of heard) }
{}

/// An access asks nothing exactly where it stays with the host or the member is known to be gone, and each answer comes
/// exactly after its replies.
pub fn answers_have_their_causes()
    ensures local { (known : Known) (route : Route) → (started known route ≡ Started.Local) ↔ ((known.gone ≡ true) ⊎ (route ≡ Route.Local)) }
    ensures ones { (guest queue : ℕ) (known : Known) (route : Route) (x : Exchange) (past : List Heard)
        → IsRun guest known queue route (answered x ∷ past)
        → ((after_all guest known queue route (answered x ∷ past)).answer ≡ Some Answer.Ones) ↔ GivesOnes x.1 }
    ensures refused_full { (guest queue : ℕ) (known : Known) (route : Route) (x : Exchange) (past : List Heard) (full at : ℕ)
        → IsRun guest known queue route (answered x ∷ past)
        → ((after_all guest known queue route (answered x ∷ past)).answer ≡ Some (Answer.RefusedFull full at)) ↔ ((full ≡ queue) × GivesFull queue at x) }
    ensures refused_memory { (guest queue : ℕ) (known : Known) (route : Route) (x : Exchange) (past : List Heard)
        → IsRun guest known queue route (answered x ∷ past)
        → ((after_all guest known queue route (answered x ∷ past)).answer ≡ Some Answer.RefusedMemory) ↔ GivesNoMemory x.1 }
    ensures read_back { (guest queue : ℕ) (known : Known) (route : Route) (x : Exchange) (past : List Heard) (bytes : List ℕ)
        → IsRun guest known queue route (answered x ∷ past)
        → ((after_all guest known queue route (answered x ∷ past)).answer ≡ Some (Answer.Data bytes)) ↔ GivesData (reads_by route) bytes x.1 }
    ensures written { (guest queue : ℕ) (known : Known) (route : Route) (x : Exchange) (past : List Heard)
        → IsRun guest known queue route (answered x ∷ past)
        → ((after_all guest known queue route (answered x ∷ past)).answer ≡ Some Answer.Written) ↔ GivesWritten (reads_by route) x.1 }
    ensures unanswered { (guest queue : ℕ) (known : Known) (route : Route) (x : Exchange) (past : List Heard)
        → IsRun guest known queue route (answered x ∷ past)
        → ((after_all guest known queue route (answered x ∷ past)).answer ≡ None) ↔ GoesOn x.1 }
{}

/// What bring-up comes to is by the reply to its latest ask, and each outcome comes exactly after its replies. The opcodes
/// that it wants are 0 to 6.
pub fn outcomes_have_their_causes()
    ensures by_reply { (member : ℕ) (stage : BringStage) (command : BringCommand) (ask : Ask) (told : Told)
        → command_at stage ≡ Some command → next_ask member stage ≡ Some ask → AnswersAsk ask told → brought_by (after stage told) ≡ brought_after command told }
    ensures unfit { (command : BringCommand) (told : Told) (status qualifier bits : ℕ) → (brought_after command told ≡ Some (Brought.Unfit status qualifier bits)) ↔ GivesUnfit command status qualifier bits told }
    ensures ready { (command : BringCommand) (told : Told) (floor : ℕ) → (brought_after command told ≡ Some (Brought.Ready floor)) ↔ GivesReady command floor told }
    ensures nothing { (command : BringCommand) (told : Told) → (brought_after command told ≡ None) ↔ BringsOn command told }
    ensures opcodes { (done : DoneParts) → (has_opcodes done ≡ true) ↔ ((n : ℕ) → n ≤ 6 → bit_at (le64 0 done.payload) n ≡ 1) }
{}

fn crosses<T: Send + Sync>() {}

/// Drivers and bring-up may be sent to a thread, and shared by threads, and so may what they take and give.
pub fn drivers_cross_threads() {
    crosses::<Driver>();
    crosses::<BringUp>();
    crosses::<Started>();
    crosses::<Answer>();
    crosses::<Brought>();
}

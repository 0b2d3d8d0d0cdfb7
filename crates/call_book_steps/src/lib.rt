// The end of a booking (document 01: book), once its holds are found: its steps are judged, 22 and 23 are tried, and an
// accepted one takes effect.
#![tactic(auto)]

ghost use Rattle.std.specs.Prelude.{◌≡◌};
ghost use Rattle.step_premises.specs.Begin.{sequent};
ghost use Rattle.step_checker.specs.Cycle.{refusal_of, refused_by};
ghost use Rattle.call_contracts.specs.Called.{Handled};
ghost use Rattle.call_book_laws.specs.BookingFound.{booking_at, Steppable};

use call_checks::Verdict;
use call_holds::Sides;
use ledger::{Answer, Refusal};
use read_heads::Head;
use request::Kind;
use step_checker::Stop;
use step_rows::{LabelRows, StepRows};
use steps::{Goal, Sequent};
use store::Store;

// The sequent of the first step: the goal from the holds.
fn opening(head: Head, sides: Sides) -> Sequent
    ensures { result ≡ sequent sides.unrestricted sides.linear
        (Goal.Holds head.formula head.interval) }
{
    Sequent {
        unrestricted: sides.unrestricted,
        linear: sides.linear,
        goal: Goal::Holds(head.formula, head.interval),
    }
}

// The refusal of steps that are stopped; it is not asked for where they are closed.
fn refusal(checked: Result<(), Stop>) -> Answer
    ensures { result ≡ refused_by (refusal_of checked) }
{
    match checked {
        Err(stop) => Answer::Refused(stop.refusal, stop.step),
        Ok(()) => Answer::Refused(0, 0),
    }
}

// 40 to 42 step by step, 22, 23; then the linear holds go and the goal comes as one linear credential.
pub fn book_steps(
    store: &mut Store,
    head: Head,
    serials: &[u32],
    rows: &StepRows,
    table: &mut LabelRows,
    sides: Sides,
) -> Answer
    requires { Steppable store.old head serials.now rows.now table.old sides }
    ensures { Handled store.old (booking_at head serials.now rows.now) result
        store.new }
{
    let checked = step_checker::check(
        store,
        rows,
        table,
        head.steps,
        opening(head, sides),
        head.holds,
    );
    let Ok(()) = checked else {
        return refusal(checked);
    };
    let room = call_checks::check_room(store, sides.linears);
    let Verdict::Passed = room else {
        return Answer::Refused(Refusal::CredentialsFull as u32, 0);
    };
    let unused = call_checks::check_unused(store);
    let Verdict::Passed = unused else {
        return Answer::Refused(Refusal::SerialsUsedUp as u32, 0);
    };
    let serial = store::next_serial(store);
    call_holds::spend(store, serials);
    store_credentials::give(store, Kind::Linear, head.formula, head.interval);
    Answer::Accepted(serial)
}

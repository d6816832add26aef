// Document 01's numbers of the refusals of a filling.
ghost use Rattle.std.specs.Prelude.{◌≡◌};
ghost use Rattle.filling.specs.Refusals.{number_of, verdict_number};

use filling::Refusal;

// In one table, as its contract gives it.
#[tactic(auto, unfolding(filling::specs::Refusals::number_of))]
pub fn refusal_number(r: Refusal) -> u64
    ensures { result ≡ number_of r }
{
    match r {
        Refusal::Job(k) => bits::refusal_number(k),
        Refusal::MissingShape => 9,
        Refusal::WrongOrder => 10,
        Refusal::StripRoom => 20,
        Refusal::EntryRoom => 21,
        Refusal::IntervalRoom => 22,
        Refusal::OrderUsedUp => 23,
        Refusal::NotStanding => 24,
        Refusal::TooManyOfKind => 25,
        Refusal::OutsideRange => 26,
        Refusal::InTheWay => 27,
        Refusal::PositionRoom => 30,
        Refusal::Inconsistent => 31,
    }
}

// The number of a refused call, or 0.
#[tactic(auto, unfolding(filling::specs::Refusals::verdict_number))]
pub fn verdict_number(v: Result<(), Refusal>) -> u64
    ensures { result ≡ verdict_number v }
{
    match v {
        Ok(()) => 0,
        Err(r) => refusal_number(r),
    }
}

// The value of one node of an option, and the terms of each kind.
#![tactic(auto)]

ghost use Rattle.std.specs.Prelude.{◌≡◌, ◌-◌};
ghost use Rattle.pricing_laws.specs.Pricer.{exercise, held_or_exercised};
ghost use Rattle.exercise.specs.Terms.{side, terms_of};

// An option's side, its strike and the last row on which it may be exercised.
#[derive(Clone, Copy)]
pub struct Terms {
    pub call: bool,
    pub strike: u64,
    pub last: usize,
}

// The terms of a kind: 1 European call, 2 European put, 3 American call, 4 American put.
pub fn terms_of(kind: u64, expiry: usize, strike: u64) -> Terms
    ensures { result ≡ terms_of kind expiry strike }
{
    Terms {
        call: kind == 1 || kind == 3,
        strike,
        last: expiry,
    }
}

// The difference, or 0 where it would be below 0.
fn excess(x: u64, y: u64) -> u64
    ensures { result ≡ x - y }
{
    if y < x { x - y } else { 0 }
}

// Bond less strike for a call, strike less bond for a put, at least 0.
pub fn exercise_value(call: bool, strike: u64, bond: u64) -> u64
    ensures { result ≡ exercise (side call) strike bond }
{
    if call {
        return excess(bond, strike);
    }
    excess(strike, bond)
}

// At expiry, of a bond that holds the row's flow: the exercise value without it. Where the flow is more than the bond, on 0.
pub fn expiry_value(call: bool, strike: u64, bond: u64, flow: u64) -> u64
    ensures { result ≡ exercise (side call) strike (bond - flow) }
{
    exercise_value(call, strike, excess(bond, flow))
}

// Before expiry, of a bond without the row's flow: the larger of roll and exercise on a row that is listed, the roll on any other.
pub fn held_value(call: bool, strike: u64, listed: bool, roll: u64, bond: u64) -> u64
    ensures { result ≡ held_or_exercised listed roll (exercise (side call) strike bond) }
{
    if listed {
        return arithmetic::larger(roll, exercise_value(call, strike, bond));
    }
    roll
}

// The sheet of a job's record.
#![tactic(auto)]

mod lines;

ghost use Rattle.std.specs.Prelude.{◌≡◌, ◌≤◌, length};
ghost use Rattle.arithmetic.specs.Refusals.{cause_of};
ghost use Rattle.limits.specs.Limits.{most_steps};
ghost use Rattle.job_laws.specs.JobPrices.{has_option, job_bond, job_option};
ghost use Rattle.sheet_room.specs.Room.{sheet_room};
ghost use Rattle.text_laws.specs.Put.{with_text};
ghost use Rattle.text_laws.specs.inside.Put.{Put};
ghost use Rattle.sheet_laws.specs.inside.Stored.{Fitted};
ghost use Rattle.sheet_laws.specs.WholeJob.{room_cause, job_number, job_text};
ghost use Rattle.record_sheet.specs.Answers.{answer_of, written_of};

use arithmetic::Refusal;
use job_laws::JobPrices;
use job_record::Job;
use sheet_room::SHEET_ROOM;

// A sheet that stands at the end of the lent room and is so many bytes long; a refusal's number with a zero.
#[repr(C)]
#[derive(Drop)]
pub struct Written {
    pub number: u64,
    pub size: usize,
}

impl From<Result<usize, Refusal>> for Written {
    ghost from_gives = { λ outcome written. written ≡ written_of outcome };

    fn from(outcome: Result<usize, Refusal>) -> Written {
        match outcome {
            Ok(size) => Written { number: 0, size },
            Err(refusal) => Written {
                number: refusal.number(),
                size: 0,
            },
        }
    }
}

// The refusal that a number of a job's prices stands for.
fn outcome_of(number: u64) -> Result<(), Refusal>
    requires { number ≤ 13 }
    ensures { cause_of result ≡ number }
{
    match number {
        0 => Ok(()),
        1 => Err(Refusal::Job),
        2 => Err(Refusal::Frequency),
        3 => Err(Refusal::Steps),
        4 => Err(Refusal::Reversion),
        5 => Err(Refusal::Volatility),
        6 => Err(Refusal::LengthOrRow),
        7 => Err(Refusal::Quote),
        8 => Err(Refusal::Spacing),
        9 => Err(Refusal::Discount),
        10 => Err(Refusal::Flow),
        11 => Err(Refusal::Option),
        12 => Err(Refusal::Value),
        _ => Err(Refusal::Dates),
    }
}

fn room_cause(room: usize) -> Result<(), Refusal>
    ensures { cause_of result ≡ room_cause room }
{
    if room < SHEET_ROOM {
        return Err(Refusal::LengthOrRow);
    }
    Ok(())
}

// Room for the quotes of the longest tree.
fn quote_room() -> [u64; limits::MOST_STEPS]
    ensures { length result ≡ most_steps }
{
    [0; limits::MOST_STEPS]
}

// Draws the priced tree that stands at the start of both memories.
fn draw<'a>(
    job: Job,
    prices: JobPrices,
    discounts: &'a [u64],
    state_prices: &'a [u64],
    out: &mut [u8],
) -> usize
    requires fitted { Fitted job discounts.now state_prices.now × (sheet_room ≤ length out.old) }
    requires prices_value { prices ≡ record { number = 0; bond = job_bond job; has_option = has_option job.option; option = job_option job } }
    ensures { Put out.old (length out.old) (job_text job) result out.new }
{
    let steps = job.steps;
    let reversion = job_fit::meant_reversion(job.version, job.reversion);
    let mut quotes = quote_room();
    job_fit::quotes_of_record(job, &mut quotes).unwrap();
    let discount_count = lattice::discounts_needed(steps, reversion).unwrap();
    let price_count = lattice::state_prices_needed(steps, reversion).unwrap();
    lines::put_sheet(
        out,
        steps,
        reversion,
        &quotes[..steps],
        &discounts[..discount_count as usize],
        &state_prices[..price_count as usize],
        prices,
    )
}

// The sheet of a record, at the end of the lent room: 468,736 bytes are enough for every job, and fewer are refused with 6. Else the number of
// its prices. A refusal leaves the room as it was.
pub fn sheet_of_record(job: Job, out: &mut [u8]) -> Result<usize, Refusal>
    ensures answer { written_of result ≡ answer_of (job_number job (length out.old)) (job_text job) }
    ensures memory { out.new ≡ with_text (job_number job (length out.old)) out.old (length out.old)
        (job_text job) }
{
    let mut discounts = limits::discount_room();
    let mut state_prices = limits::state_price_room();
    let prices = job_prices::prices_in_place(job, &mut discounts, &mut state_prices);
    let room = out.len();
    arithmetic::lowest_refusal(outcome_of(prices.number), room_cause(room))?;
    let start = draw(job, prices, &discounts, &state_prices, out);
    Ok(room - start)
}

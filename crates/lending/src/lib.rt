// The lending worth of a bond by a table of haircut bands, which comes as five slices of one length: first rows, last rows, lowest prices,
// highest prices, haircuts.
#![tactic(auto)]

ghost use Rattle.std.specs.Prelude.{◌≡◌};
ghost use Rattle.bands.specs.Bands.{within, bands_of};
ghost use Rattle.bands.specs.inside.Lists.{Parallel};
ghost use Rattle.lending.specs.Lending.{band_index, lending_worth, result_worth};

use arithmetic::Refusal;
use bands::{Fault, Verdict};

// The lending worth, 0 where it is refused, and the verdict.
#[repr(C)]
#[derive(Drop)]
pub struct Worth {
    pub worth: u64,
    pub verdict: Verdict,
}

impl From<Result<u64, Fault>> for Worth {
    ghost from_gives = { λ outcome answer. answer ≡ result_worth outcome };

    fn from(outcome: Result<u64, Fault>) -> Worth {
        match outcome {
            Ok(worth) => {
                let verdict = Verdict {
                    number: 0,
                    row: 0,
                    price: 0,
                    place: 0,
                };
                Worth { worth, verdict }
            }
            Err(fault) => {
                let verdict = Verdict::from(fault);
                Worth { worth: 0, verdict }
            }
        }
    }
}

// Whether a row and a price fall in a band.
fn is_within(first: u64, last: u64, lowest: u64, highest: u64, row: u64, price: u64) -> bool
    ensures { result ≡ within first last lowest highest row price }
{
    if row < first {
        return false;
    }
    if last < row {
        return false;
    }
    if price < lowest {
        return false;
    }
    if highest < price {
        return false;
    }
    true
}

// The index of the first band that contains the pair, or the number of bands.
fn find_band(
    firsts: &[u64],
    lasts: &[u64],
    lowests: &[u64],
    highests: &[u64],
    row: u64,
    price: u64,
) -> usize
    requires { Parallel firsts.now lasts.now lowests.now highests.now }
    ensures { result ≡ band_index (bands_of firsts.now lasts.now lowests.now highests.now) row price }
{
    for k in 0..firsts.len() {
        if is_within(firsts[k], lasts[k], lowests[k], highests[k], row, price) {
            return k;
        }
    }
    firsts.len()
}

// The price less the haircut of its band. Refusals: 6 a row outside 1 to 60, or lengths that differ; 12 a price above 8 × one; then
// the table's own.
pub fn lending_worth(
    firsts: &[u64],
    lasts: &[u64],
    lowests: &[u64],
    highests: &[u64],
    haircuts: &[u64],
    row: u64,
    price: u64,
) -> Result<u64, Fault>
    ensures { result_worth result ≡ lending_worth firsts.now lasts.now lowests.now highests.now haircuts.now row price }
{
    if row < 1 {
        return Err(Fault::Refused(Refusal::LengthOrRow));
    }
    if bands::LAST_ROW < row {
        return Err(Fault::Refused(Refusal::LengthOrRow));
    }
    if !bands::have_one_length(firsts, lasts, lowests, highests, haircuts) {
        return Err(Fault::Refused(Refusal::LengthOrRow));
    }
    if limits::VALUE_LIMIT < price {
        return Err(Fault::Refused(Refusal::Value));
    }
    bands::check_bands(firsts, lasts, lowests, highests, haircuts)?;
    let k = find_band(firsts, lasts, lowests, highests, row, price);
    let haircut = haircuts[k];
    Ok(price * (bands::MOST_HAIRCUT - haircut) / bands::MOST_HAIRCUT)
}

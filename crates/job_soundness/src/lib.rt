// Whether a record is one that some bytes are read as: each number fits its field, the option's numbers belong to its tag, and zeros stand wherever
// the form says nothing.
#![tactic(auto)]

ghost use Rattle.std.specs.Prelude.{◌≡◌, ◌≤◌, length};
ghost use Rattle.job_record.specs.Form.{most_job_steps};
ghost use Rattle.writer_laws.specs.Sound.{most_in, all_at_most, is_column, are_kinds, are_columns, head_fits, option_fits, is_absent, option_belongs};
ghost use Rattle.writer_laws.specs.Sound.{version_fits, is_sound_option, is_sound};

use job_record::{Job, OptionRecord};

// The greatest numbers in one, two, four and eight bytes.
const MOST_IN_ONE: u64 = 255;

const MOST_IN_TWO: u64 = 65_535;

const MOST_IN_FOUR: u64 = 4_294_967_295;

const MOST_IN_EIGHT: u64 = 18_446_744_073_709_551_615;

// Whether each byte of a slice is 0. There is no test on the way, so that many are looked at together.
fn all_zero(bytes: &[u8]) -> bool
    ensures { result ≡ all_at_most 0 bytes.now }
{
    let mut top: u8 = 0;
    for byte in bytes {
        top = top.max(*byte);
    }
    top == 0
}

// Whether zeros stand after the first `count` bytes of a column.
fn is_byte_column(column: &[u8], count: usize) -> bool
    requires { count ≤ length column.now }
    ensures { result ≡ is_column (length column.now) column.now count (most_in 1) }
{
    all_zero(&column[count..])
}

// Whether the first `count` numbers of a column are at most a limit, and zeros stand after them.
fn is_column(column: &[u64], count: usize, most: u64) -> bool
    requires { count ≤ length column.now }
    ensures { result ≡ is_column (length column.now) column.now count most }
{
    if !arithmetic::all_between(0, most, &column[..count]) {
        return false;
    }
    arithmetic::all_between(0, 0, &column[count..])
}

// Whether each of the first `count` tags is a kind of quote.
fn are_kinds(kinds: &[u8], count: usize) -> bool
    requires { count ≤ length kinds.now }
    ensures { result ≡ are_kinds kinds.now count }
{
    kinds[..count].iter().all(|tag| job_reader::is_kind(*tag))
}

// Whether the columns are those of so many quotes and flows.
fn are_columns(kinds: &[u8], figures: &[u64], flows: &[u64], steps: usize) -> bool
    requires { (steps ≤ most_job_steps) × (length kinds.now ≡ most_job_steps) × (length figures.now ≡ most_job_steps) × (length flows.now ≡ most_job_steps) }
    ensures { result ≡ are_columns kinds.now figures.now flows.now steps }
{
    if !are_kinds(kinds, steps) {
        return false;
    }
    if !is_byte_column(kinds, steps) {
        return false;
    }
    if !is_column(figures, steps, MOST_IN_EIGHT) {
        return false;
    }
    is_column(flows, steps, MOST_IN_FOUR)
}

// Whether a number is a version, or 0 for none.
fn version_fits(version: u64) -> bool
    ensures { result ≡ version_fits version }
{
    if version == 0 {
        return true;
    }
    reversion::is_version(version)
}

// Whether the numbers of the head fit their fields.
fn head_fits(frequency: u64, steps: usize, reversion: u64, volatility: u64, version: u64) -> bool
    ensures { result ≡ head_fits frequency steps reversion volatility version }
{
    if MOST_IN_ONE < frequency {
        return false;
    }
    if job_record::MOST_STEPS < steps {
        return false;
    }
    if MOST_IN_TWO < reversion {
        return false;
    }
    if MOST_IN_FOUR < volatility {
        return false;
    }
    version_fits(version)
}

// Whether the numbers of an option fit their fields, and its dates their places.
fn option_fits(kind: u64, expiry: u64, strike: u64, count: usize) -> bool
    ensures { result ≡ option_fits kind expiry strike count }
{
    if MOST_IN_ONE < kind {
        return false;
    }
    if MOST_IN_ONE < expiry {
        return false;
    }
    if MOST_IN_FOUR < strike {
        return false;
    }
    count <= job_record::MOST_DATES
}

// Whether nothing is said of an option that is not there.
fn is_absent(tag: u64, kind: u64, expiry: u64, strike: u64, count: usize) -> bool
    ensures { result ≡ is_absent tag kind expiry strike count }
{
    if tag != 0 {
        return false;
    }
    if kind != 0 {
        return false;
    }
    if expiry != 0 {
        return false;
    }
    if strike != 0 {
        return false;
    }
    count == 0
}

// Whether the numbers of an option belong to its tag.
fn option_belongs(tag: u64, kind: u64, expiry: u64, strike: u64, count: usize) -> bool
    ensures { result ≡ option_belongs tag kind expiry strike count }
{
    if tag == 8 {
        return count == 0;
    }
    if tag == 10 {
        return expiry == 0;
    }
    is_absent(tag, kind, expiry, strike, count)
}

// Whether an option is one that is read from some job.
fn is_sound_option(option: OptionRecord) -> bool
    ensures { result ≡ is_sound_option option }
{
    let count = option.count;
    if !option_fits(option.kind, option.expiry, option.strike, count) {
        return false;
    }
    if !option_belongs(option.tag, option.kind, option.expiry, option.strike, count) {
        return false;
    }
    let dates = option.dates;
    is_byte_column(&dates, count)
}

// Whether a record is one that is read from some bytes, however many.
pub fn is_sound(job: Job) -> bool
    ensures { result ≡ is_sound job }
{
    let steps = job.steps;
    if !head_fits(
        job.frequency,
        steps,
        job.reversion,
        job.volatility,
        job.version,
    ) {
        return false;
    }
    let kinds = job.kinds;
    let figures = job.figures;
    let flows = job.flows;
    if !are_columns(&kinds, &figures, &flows, steps) {
        return false;
    }
    is_sound_option(job.option)
}

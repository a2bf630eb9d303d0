// The job writer: a record to the bytes that are read as it. Limits are not the writer's: only the form counts.
#![tactic(auto)]

ghost use Rattle.std.specs.Prelude.{◌≡◌, ◌∷◌, ◌+◌, ◌≤◌, length};
ghost use Rattle.arithmetic.specs.Row.{place};
ghost use Rattle.arithmetic.specs.Answers.{refused};
ghost use Rattle.job_record.specs.Bytes.{number_bytes};
ghost use Rattle.job_record.specs.inside.Widths.{most_width};
ghost use Rattle.job_record.specs.Form.{most_job_steps, most_dates, version_at, data_at, after_field, after_fields, option_width, rest_at, dates_at};
ghost use Rattle.job_record.specs.Grammar.{field, joined, option_field, version_field, encode, SoundOption, SoundJob};
ghost use Rattle.writer_laws.specs.inside.Parts.{head_fields, quotes_from, quote_of, flow_of, kind_bytes, list_bytes, option_size};
ghost use Rattle.writer_laws.specs.Writer.{written, written_memory};

use arithmetic::Answer;
use job_record::{Job, OptionRecord};

// Writes `width` bytes of a number at a place, high byte first: the last one comes first.
fn put_number(out: &mut [u8], at: usize, width: usize, value: u64)
    requires { (width ≤ most_width) × (at + width ≤ length out.old) }
    ensures { out.new ≡ place out.old at (number_bytes width value) }
{
    let mut rest = value;
    for place in (at..at + width).rev() {
        out[place] = (rest % 256) as u8;
        rest /= 256;
    }
}

// Writes the tag of a field, and the length of its data.
fn put_tag(out: &mut [u8], at: usize, tag: u8, size: usize)
    requires { data_at at ≤ length out.old }
    ensures { out.new ≡ place out.old at (tag ∷ number_bytes 2 size) }
{
    out[at] = tag;
    put_number(out, at + 1, 2, size as u64);
}

// Writes a field whose data are one number.
fn put_field(out: &mut [u8], at: usize, tag: u8, width: usize, value: u64)
    requires { (width ≤ most_width) × (after_field at width ≤ length out.old) }
    ensures { out.new ≡ place out.old at (field tag (number_bytes width value)) }
{
    put_tag(out, at, tag, width);
    put_number(out, at + job_reader::FIELD_HEAD, width, value);
}

// Writes the fields that stand once, at the front.
fn put_head(out: &mut [u8], frequency: u64, steps: u64, reversion: u64, volatility: u64)
    requires { version_at ≤ length out.old }
    ensures { out.new ≡ place out.old 0 (head_fields frequency steps reversion volatility) }
{
    put_field(out, job_reader::FREQUENCY_AT, 1, 1, frequency);
    put_field(out, job_reader::STEPS_AT, 2, 1, steps);
    put_field(out, job_reader::REVERSION_AT, 3, 2, reversion);
    put_field(out, job_reader::VOLATILITY_AT, 4, 4, volatility);
}

// Writes the version, if there is one.
fn put_version(out: &mut [u8], version: u64)
    requires { quotes_from version ≤ length out.old }
    ensures { out.new ≡ place out.old version_at (version_field version) }
{
    if version != 0 {
        put_field(out, job_reader::VERSION_AT, 11, 1, version);
    }
}

// Where the quotes start.
fn quotes_from(version: u64) -> usize
    ensures { (result ≡ quotes_from version) × (result ≤ after_field version_at 1) }
{
    if version == 0 {
        return job_reader::VERSION_AT;
    }
    job_reader::QUOTES_AT
}

// Writes `count` quotes from a place on.
fn put_quotes(out: &mut [u8], from: usize, kinds: &[u8], figures: &[u64], count: usize)
    requires { (after_fields from 8 count ≤ length out.old) × (count ≤ length kinds.now) × (count ≤ length figures.now) }
    ensures { out.new ≡ place out.old from (joined count (quote_of kinds.now figures.now)) }
{
    for i in 0..count {
        put_field(
            out,
            from + (8 + job_reader::FIELD_HEAD) * i,
            kinds[i],
            8,
            figures[i],
        );
    }
}

// Writes `count` flows from a place on.
fn put_flows(out: &mut [u8], from: usize, flows: &[u64], count: usize)
    requires { (after_fields from 4 count ≤ length out.old) × (count ≤ length flows.now) }
    ensures { out.new ≡ place out.old from (joined count (flow_of flows.now)) }
{
    for (i, flow) in flows[..count].iter().enumerate() {
        put_field(out, from + (4 + job_reader::FIELD_HEAD) * i, 7, 4, *flow);
    }
}

// Writes bytes as they are.
fn put_dates(out: &mut [u8], from: usize, dates: &[u8])
    requires { from + length dates.now ≤ length out.old }
    ensures { out.new ≡ place out.old from dates.now }
{
    out[from..from + dates.len()].copy_from_slice(dates);
}

// Writes an option of a kind.
fn put_kind(out: &mut [u8], at: usize, kind: u64, expiry: u64, strike: u64)
    requires { after_field at option_width ≤ length out.old }
    ensures { out.new ≡ place out.old at (field 8 (kind_bytes kind expiry strike)) }
{
    let kind_at = at + job_reader::FIELD_HEAD;
    put_tag(out, at, 8, job_reader::OPTION_WIDTH);
    put_number(out, kind_at, 1, kind);
    put_number(out, kind_at + 1, 1, expiry);
    put_number(out, kind_at + 2, 4, strike);
}

// Writes an option with a list of dates.
fn put_list(out: &mut [u8], at: usize, side: u64, strike: u64, dates: &[u8])
    requires { dates_at at + length dates.now ≤ length out.old }
    ensures { out.new ≡ place out.old at (field 10 (list_bytes side strike dates.now)) }
{
    let side_at = at + job_reader::FIELD_HEAD;
    put_tag(out, at, 10, job_reader::LIST_HEAD + dates.len());
    put_number(out, side_at, 1, side);
    put_number(out, side_at + 1, 4, strike);
    put_dates(out, side_at + job_reader::LIST_HEAD, dates);
}

// Writes an option, if there is one.
fn put_option(out: &mut [u8], at: usize, option: OptionRecord)
    requires { (SoundOption option) × (at + length (option_field option) ≤ length out.old) }
    ensures { out.new ≡ place out.old at (option_field option) }
{
    if option.tag == 8 {
        put_kind(out, at, option.kind, option.expiry, option.strike);
        return;
    }
    if option.tag == 10 {
        let count = option.count;
        let dates = option.dates;
        put_list(out, at, option.kind, option.strike, &dates[..count]);
    }
}

// How many bytes the field of an option has.
fn option_size(tag: u64, count: usize) -> usize
    requires { count ≤ most_dates }
    ensures { result ≡ option_size tag count }
{
    if tag == 8 {
        return job_reader::FIELD_HEAD + job_reader::OPTION_WIDTH;
    }
    if tag == 10 {
        return job_reader::FIELD_HEAD + job_reader::LIST_HEAD + count;
    }
    0
}

// Writes a sound record at the front of a memory that is long enough.
fn put_job(out: &mut [u8], job: Job)
    requires { (SoundJob job) × (length (encode job) ≤ length out.old) }
    ensures { out.new ≡ place out.old 0 (encode job) }
{
    let steps = job.steps;
    let kinds = job.kinds;
    let figures = job.figures;
    let flows = job.flows;
    let option = job.option;
    let quotes_at = quotes_from(job.version);
    let flows_at = quotes_at + (8 + job_reader::FIELD_HEAD) * steps;
    put_head(
        out,
        job.frequency,
        steps as u64,
        job.reversion,
        job.volatility,
    );
    put_version(out, job.version);
    put_quotes(out, quotes_at, &kinds, &figures, steps);
    put_flows(out, flows_at, &flows, steps);
    put_option(out, flows_at + (4 + job_reader::FIELD_HEAD) * steps, option);
}

// How many bytes a record is written in.
fn job_size(version: u64, steps: usize, tag: u64, count: usize) -> usize
    requires { (steps ≤ most_job_steps) × (count ≤ most_dates) }
    ensures { result ≡ rest_at (quotes_from version) steps + option_size tag count }
{
    let flows_at = quotes_from(version) + (8 + job_reader::FIELD_HEAD) * steps;
    flows_at + (4 + job_reader::FIELD_HEAD) * steps + option_size(tag, count)
}

fn refusal(cause: u64) -> Answer
    ensures { result ≡ refused cause }
{
    Answer {
        number: cause,
        value: 0,
    }
}

// Writes a record at the front of the memory, and answers how many bytes. 1 a record that no job is read as; then 6 a memory that is too
// short. A refusal leaves the memory as it was.
pub fn write(job: Job, out: &mut [u8]) -> Answer
    ensures answer { result ≡ written job (length out.old) }
    ensures memory { out.new ≡ written_memory job out.old }
{
    if !job_soundness::is_sound(job) {
        return refusal(1);
    }
    let option = job.option;
    let size = job_size(job.version, job.steps, option.tag, option.count);
    if job_reader::MOST_BYTES < size {
        return refusal(1);
    }
    if out.len() < size {
        return refusal(6);
    }
    put_job(out, job);
    Answer {
        number: 0,
        value: size as u64,
    }
}

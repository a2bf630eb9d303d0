// The job reader: bytes to a job record by value, or refusal 1. The form is judged before any number.
#![tactic(auto)]

ghost use Rattle.std.specs.Prelude.{◌≡◌, true, ◌+◌, ◌*◌, ◌^◌, ◌≤◌, ◌<◌, length, replicate};
ghost use Rattle.arithmetic.specs.Row.{padded};
ghost use Rattle.job_record.specs.Bytes.{number_at};
ghost use Rattle.job_record.specs.inside.Widths.{most_width, farthest};
ghost use Rattle.job_record.specs.Form.{
  most_bytes,
  most_job_steps,
  most_dates,
  after_field,
  after_fields,
  rest_at,
  is_kind,
  has_tag,
  version_at,
  has_version,
  quotes_at,
  option_width,
  dates_at,
  dates_left,
  field_at,
  fields_from,
  head_formed,
  kind_formed,
  list_formed,
  rest_formed,
  body_formed,
  well_formed,
};
ghost use Rattle.job_record.specs.Reader.{tag_of, data_of, date_of, no_option, kind_option_at, list_option_at, option_at};
ghost use Rattle.job_record.specs.Reader.{version_of, job_of, no_job, reading_of};
ghost use Rattle.job_record.specs.Grammar.{ReadsAs};

use job_record::{Job, OptionRecord, Reading, Tags};

pub const MOST_BYTES: usize = 4700;

// The bytes of tag and length before a field's data.
pub const FIELD_HEAD: usize = 3;

pub const FREQUENCY_AT: usize = 0;

// Each field stands where the one before it ends.
pub const STEPS_AT: usize = FREQUENCY_AT + FIELD_HEAD + 1;

pub const REVERSION_AT: usize = STEPS_AT + FIELD_HEAD + 1;

pub const VOLATILITY_AT: usize = REVERSION_AT + FIELD_HEAD + 2;

// Where the version stands, or the quotes where there is none.
pub const VERSION_AT: usize = VOLATILITY_AT + FIELD_HEAD + 4;

// Where the quotes start behind a version.
pub const QUOTES_AT: usize = VERSION_AT + FIELD_HEAD + 1;

// Kind, expiry and strike.
pub const OPTION_WIDTH: usize = 1 + 1 + 4;

// Side and strike, before the dates.
pub const LIST_HEAD: usize = 1 + 4;

// The number in `width` bytes from a place on, high byte first.
fn number(bytes: &[u8], at: usize, width: usize) -> u64
    requires { (width ≤ most_width) × (at + width ≤ length bytes.now) }
    ensures { (result ≡ number_at bytes.now at width) × (result < 256 ^ width) }
{
    let mut value: u64 = 0;
    for byte in &bytes[at..at + width] {
        value = value * 256 + u64::from(*byte);
    }
    value
}

// The place after `count` fields of one width that stand from a place on.
fn after_fields(from: usize, width: usize, count: usize) -> usize
    requires { (from ≤ most_bytes) × (width ≤ most_width) × (count ≤ most_job_steps) }
    ensures { (result ≡ after_fields from width count) × (result ≤ farthest) }
{
    from + (width + FIELD_HEAD) * count
}

// Whether a tag is a kind of quote.
pub fn is_kind(tag: u8) -> bool
    ensures { result ≡ is_kind tag }
{
    if tag == 5 {
        return true;
    }
    if tag == 6 {
        return true;
    }
    tag == 9
}

// Whether a tag is among those asked for.
fn has_tag(tags: Tags, tag: u8) -> bool
    ensures { result ≡ has_tag tags tag }
{
    match tags {
        Tags::AnyKind => is_kind(tag),
        Tags::Only(wanted) => tag == wanted,
    }
}

// Whether a whole field stands at a place: its tag, its length and as many bytes of data.
fn field_at(bytes: &[u8], at: usize, tags: Tags, width: usize) -> bool
    requires { (at ≤ farthest) × (width ≤ most_bytes) }
    ensures { result ≡ field_at bytes.now at tags width }
{
    if bytes.len() < at + FIELD_HEAD + width {
        return false;
    }
    if !has_tag(tags, bytes[at]) {
        return false;
    }
    number(bytes, at + 1, 2) == width as u64
}

// Whether `count` such fields stand one after the other from a place on.
fn fields_from(bytes: &[u8], from: usize, tags: Tags, width: usize, count: usize) -> bool
    requires { (from ≤ most_bytes) × (width ≤ most_width) × (count ≤ most_job_steps) }
    ensures { result ≡ fields_from bytes.now from tags width count }
{
    (0..count).all(|i| field_at(bytes, after_fields(from, width, i), tags, width))
}

fn head_formed(bytes: &[u8]) -> bool
    ensures { result ≡ head_formed bytes.now }
{
    if !field_at(bytes, FREQUENCY_AT, Tags::Only(1), 1) {
        return false;
    }
    if !field_at(bytes, STEPS_AT, Tags::Only(2), 1) {
        return false;
    }
    if !field_at(bytes, REVERSION_AT, Tags::Only(3), 2) {
        return false;
    }
    field_at(bytes, VOLATILITY_AT, Tags::Only(4), 4)
}

// Whether a version, 1 or 2, stands after the head.
fn has_version(bytes: &[u8]) -> bool
    ensures { result ≡ has_version bytes.now }
{
    if !field_at(bytes, VERSION_AT, Tags::Only(11), 1) {
        return false;
    }
    reversion::is_version(number(bytes, VERSION_AT + FIELD_HEAD, 1))
}

// Where the quotes start.
fn quotes_at(bytes: &[u8]) -> usize
    ensures { (result ≡ quotes_at bytes.now) × (result ≤ after_field version_at 1) }
{
    if has_version(bytes) {
        return QUOTES_AT;
    }
    VERSION_AT
}

// Whether one option of a kind, and nothing after it, stands from a place on.
fn kind_formed(bytes: &[u8], at: usize) -> bool
    requires { at ≤ farthest }
    ensures { result ≡ kind_formed bytes.now at }
{
    if !field_at(bytes, at, Tags::Only(8), OPTION_WIDTH) {
        return false;
    }
    bytes.len() == at + FIELD_HEAD + OPTION_WIDTH
}

// Whether one list of dates stands from a place on: all the bytes that are left are its data.
fn list_formed(bytes: &[u8], at: usize) -> bool
    requires { (at ≤ farthest) × (length bytes.now ≤ most_bytes) }
    ensures { result ≡ list_formed bytes.now at }
{
    let data_at = at + FIELD_HEAD;
    if bytes.len() < data_at + LIST_HEAD {
        return false;
    }
    field_at(bytes, at, Tags::Only(10), bytes.len() - data_at)
}

// Whether nothing, or one option and nothing after it, stands from a place on.
fn rest_formed(bytes: &[u8], at: usize) -> bool
    requires { (at ≤ farthest) × (length bytes.now ≤ most_bytes) }
    ensures { result ≡ rest_formed bytes.now at }
{
    if bytes.len() == at {
        return true;
    }
    if kind_formed(bytes, at) {
        return true;
    }
    list_formed(bytes, at)
}

// Whether as many quotes and flows as there are steps, and at most one option, stand from a place on.
fn body_formed(bytes: &[u8], quotes: usize, steps: usize) -> bool
    requires { (steps ≤ most_job_steps) × (rest_at quotes steps ≤ most_bytes) × (length bytes.now ≤ most_bytes) }
    ensures { result ≡ body_formed bytes.now quotes steps }
{
    if !fields_from(bytes, quotes, Tags::AnyKind, 8, steps) {
        return false;
    }
    let flows = after_fields(quotes, 8, steps);
    if !fields_from(bytes, flows, Tags::Only(7), 4, steps) {
        return false;
    }
    rest_formed(bytes, after_fields(flows, 4, steps))
}

fn well_formed(bytes: &[u8]) -> bool
    ensures { result ≡ well_formed bytes.now }
{
    if MOST_BYTES < bytes.len() {
        return false;
    }
    if !head_formed(bytes) {
        return false;
    }
    let steps = number(bytes, STEPS_AT + FIELD_HEAD, 1) as usize;
    body_formed(bytes, quotes_at(bytes), steps)
}

// The tags of `count` fields of one width from a place on.
fn tags_from(bytes: &[u8], from: usize, width: usize, count: usize) -> [u8; job_record::MOST_STEPS]
    requires { (from ≤ most_bytes) × (width ≤ most_width) × (count ≤ most_job_steps) × (after_fields from width count ≤ length bytes.now) }
    ensures { result ≡ padded most_job_steps count (tag_of bytes.now from width) }
{
    let mut tags = [0u8; job_record::MOST_STEPS];
    for i in 0..count {
        tags[i] = bytes[after_fields(from, width, i)];
    }
    tags
}

// The data of `count` fields of one width from a place on.
fn data_from(bytes: &[u8], from: usize, width: usize, count: usize) -> [u64; job_record::MOST_STEPS]
    requires { (from ≤ most_bytes) × (width ≤ most_width) × (count ≤ most_job_steps) × (after_fields from width count ≤ length bytes.now) }
    ensures { result ≡ padded most_job_steps count (data_of bytes.now from width) }
{
    let mut numbers = [0u64; job_record::MOST_STEPS];
    for i in 0..count {
        numbers[i] = number(bytes, after_fields(from, width, i) + FIELD_HEAD, width);
    }
    numbers
}

// Zeros, made apart so that no proof above sees them one by one.
fn no_dates() -> [u8; job_record::MOST_DATES]
    ensures { result ≡ replicate most_dates 0 }
{
    [0u8; job_record::MOST_DATES]
}

fn no_option() -> OptionRecord
    ensures { result ≡ no_option }
{
    let dates = no_dates();
    OptionRecord {
        tag: 0,
        kind: 0,
        expiry: 0,
        strike: 0,
        count: 0,
        dates,
    }
}

// The option of a kind whose field stands at a place.
fn kind_option_at(bytes: &[u8], at: usize) -> OptionRecord
    requires { (at ≤ farthest) × (after_field at option_width ≤ length bytes.now) }
    ensures { result ≡ kind_option_at bytes.now at }
{
    let kind_at = at + FIELD_HEAD;
    let expiry_at = kind_at + 1;
    let dates = no_dates();
    OptionRecord {
        tag: 8,
        kind: number(bytes, kind_at, 1),
        expiry: number(bytes, expiry_at, 1),
        strike: number(bytes, expiry_at + 1, 4),
        count: 0,
        dates,
    }
}

// The `count` dates from a place on.
fn dates_from(bytes: &[u8], from: usize, count: usize) -> [u8; job_record::MOST_DATES]
    requires { (count ≤ most_dates) × (from + count ≤ length bytes.now) }
    ensures { result ≡ padded most_dates count (date_of bytes.now from) }
{
    let mut dates = no_dates();
    dates[..count].copy_from_slice(&bytes[from..from + count]);
    dates
}

// The option with a list of dates whose field stands at a place, and ends the bytes.
fn list_option_at(bytes: &[u8], at: usize) -> OptionRecord
    requires { (at ≤ farthest) × (dates_at at ≤ length bytes.now) × (dates_left bytes.now at ≤ most_dates) }
    ensures { result ≡ list_option_at bytes.now at }
{
    let side_at = at + FIELD_HEAD;
    let strike_at = side_at + 1;
    let dates_at = strike_at + 4;
    let count = bytes.len() - dates_at;
    let dates = dates_from(bytes, dates_at, count);
    OptionRecord {
        tag: 10,
        kind: number(bytes, side_at, 1),
        expiry: 0,
        strike: number(bytes, strike_at, 4),
        count,
        dates,
    }
}

// The option of a well-formed job, whose other fields end at a place.
fn option_at(bytes: &[u8], at: usize) -> OptionRecord
    requires { (at ≤ farthest) × (rest_formed bytes.now at ≡ true) × (dates_left bytes.now at ≤ most_dates) }
    ensures { result ≡ option_at bytes.now at }
{
    if bytes.len() == at {
        return no_option();
    }
    if bytes[at] == 8 {
        return kind_option_at(bytes, at);
    }
    list_option_at(bytes, at)
}

// The version, 0 where there is none.
fn version_of(bytes: &[u8]) -> u64
    ensures { result ≡ version_of bytes.now }
{
    if !has_version(bytes) {
        return 0;
    }
    number(bytes, VERSION_AT + FIELD_HEAD, 1)
}

fn job_of(bytes: &[u8]) -> Job
    requires { well_formed bytes.now ≡ true }
    ensures { result ≡ job_of bytes.now }
{
    let steps = number(bytes, STEPS_AT + FIELD_HEAD, 1) as usize;
    let quotes_at = quotes_at(bytes);
    let flows_at = after_fields(quotes_at, 8, steps);
    let kinds = tags_from(bytes, quotes_at, 8, steps);
    let figures = data_from(bytes, quotes_at, 8, steps);
    let flows = data_from(bytes, flows_at, 4, steps);
    let option = option_at(bytes, after_fields(flows_at, 4, steps));
    Job {
        frequency: number(bytes, FREQUENCY_AT + FIELD_HEAD, 1),
        steps,
        reversion: number(bytes, REVERSION_AT + FIELD_HEAD, 2),
        volatility: number(bytes, VOLATILITY_AT + FIELD_HEAD, 4),
        version: version_of(bytes),
        kinds,
        figures,
        flows,
        option,
    }
}

fn no_job() -> Job
    ensures { result ≡ no_job }
{
    let option = no_option();
    Job {
        frequency: 0,
        steps: 0,
        reversion: 0,
        volatility: 0,
        version: 0,
        kinds: [0u8; job_record::MOST_STEPS],
        figures: [0u64; job_record::MOST_STEPS],
        flows: [0u64; job_record::MOST_STEPS],
        option,
    }
}

// Reads one job. Any slice is taken: bytes that are no job's are refused with 1.
pub fn read(bytes: &[u8]) -> Reading
    ensures reading { result ≡ reading_of bytes.now }
    ensures grammar { ReadsAs bytes.now result }
{
    if !well_formed(bytes) {
        return Reading {
            number: 1,
            job: no_job(),
        };
    }
    Reading {
        number: 0,
        job: job_of(bytes),
    }
}

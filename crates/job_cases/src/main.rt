// Reads jobs from standard input, each after its length in two bytes, and writes what the reader gives. vectors.py makes the input, and
// works the output out apart, field after field.
#![tactic(auto)]

ghost use Rattle.std.specs.Prelude.{◌≡◌, length};
ghost use Rattle.job_record.specs.Grammar.{SoundOption, SoundJob};

use job_record::{Job, OptionRecord};

fn write(text: &[u8]) {
    io::write_all(1, text);
}

fn write_number(value: u64) {
    write(b" ");
    io::print_decimal(1, value);
}

fn show_head(
    number: u64,
    frequency: u64,
    steps: u64,
    reversion: u64,
    volatility: u64,
    version: u64,
) {
    write(b"job");
    write_number(number);
    write_number(frequency);
    write_number(steps);
    write_number(reversion);
    write_number(volatility);
    write_number(version);
    write(b"\n");
}

fn show_row(kind: u8, figure: u64, flow: u64) {
    write(b"row");
    write_number(u64::from(kind));
    write_number(figure);
    write_number(flow);
    write(b"\n");
}

fn show_rows(kinds: &[u8], figures: &[u64], flows: &[u64])
    requires { (length figures.now ≡ length kinds.now) × (length flows.now ≡ length kinds.now) }
{
    for i in 0..kinds.len() {
        show_row(kinds[i], figures[i], flows[i]);
    }
}

fn show_dates(dates: &[u8]) {
    for date in dates {
        write_number(u64::from(*date));
    }
}

fn show_option(option: OptionRecord)
    requires { SoundOption option }
{
    if option.tag == 0 {
        return;
    }
    let count = option.count;
    let dates = option.dates;
    write(b"option");
    write_number(option.tag);
    write_number(option.kind);
    write_number(option.expiry);
    write_number(option.strike);
    write_number(count as u64);
    show_dates(&dates[..count]);
    write(b"\n");
}

fn show_job(number: u64, job: Job)
    requires { SoundJob job }
{
    let steps = job.steps;
    show_head(
        number,
        job.frequency,
        steps as u64,
        job.reversion,
        job.volatility,
        job.version,
    );
    let kinds = job.kinds;
    let figures = job.figures;
    let flows = job.flows;
    show_rows(&kinds[..steps], &figures[..steps], &flows[..steps]);
    show_option(job.option);
}

fn show(bytes: &[u8]) {
    let reading = job_reader::read(bytes);
    show_job(reading.number, reading.job);
}

fn main() {
    let mut input = frames::input_room();
    let count = io::read_full(0, &mut input);
    let mut rest = &input[..count];
    while let Some((job, after)) = frames::split_frame(rest) {
        show(job);
        rest = after;
    }
}

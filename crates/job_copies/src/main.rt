// Reads jobs from standard input, each after its length in two bytes, and writes each again in the same way, or a refusal: its number as one
// byte, which is no job. vectors.py makes the input, and works the output out apart.
#![tactic(auto)]

fn write_frame(bytes: &[u8]) {
    let size = bytes.len();
    let head = [(size / 256 % 256) as u8, (size % 256) as u8];
    io::write_all(1, &head);
    io::write_all(1, bytes);
}

fn write_refusal(number: u64) {
    let byte = [(number % 256) as u8];
    write_frame(&byte);
}

// Writes one job again, by way of its record.
fn copy(bytes: &[u8], room: &mut [u8]) {
    let reading = job_reader::read(bytes);
    if reading.number != 0 {
        write_refusal(reading.number);
        return;
    }
    let written = job_writer::write(reading.job, room);
    if written.number != 0 {
        write_refusal(written.number);
        return;
    }
    let size = written.value as usize;
    write_frame(&room[..size]);
}

fn main() {
    let mut input = frames::input_room();
    let mut room = [0u8; job_reader::MOST_BYTES];
    let count = io::read_full(0, &mut input);
    let mut rest = &input[..count];
    while let Some((job, after)) = frames::split_frame(rest) {
        copy(job, &mut room);
        rest = after;
    }
}

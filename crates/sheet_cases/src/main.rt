// Reads jobs from standard input, each after its length in two bytes, and writes their sheets one after the other. vectors.py makes the
// input, and the reference works the output out apart.
#![tactic(auto)]

fn write_sheet(job: &[u8], room: &mut [u8]) {
    if let Ok(start) = job_sheet::printed(job, room) {
        io::write_all(1, &room[start..]);
    }
}

fn main() {
    let mut input = frames::input_room();
    let mut room = sheet_room::sheet_room();
    let count = io::read_full(0, &mut input);
    let mut rest = &input[..count];
    while let Some((job, after)) = frames::split_frame(rest) {
        write_sheet(job, &mut room);
        rest = after;
    }
}

// The sheet of the job on standard input, on standard output.
#![tactic(auto)]

fn main() {
    let mut input = io::large_buffer();
    let count = io::read_full(0, &mut input);
    let mut room = sheet_room::sheet_room();
    if let Ok(start) = job_sheet::printed(&input[..count], &mut room) {
        io::write_all(1, &room[start..]);
    }
}

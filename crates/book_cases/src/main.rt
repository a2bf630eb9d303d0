// Reads files from standard input, each after its length in two bytes, and writes their reports one after the other. vectors.py makes the
// input, and the reference works the output out apart.
#![tactic(auto)]

fn write_report(file: &[u8], room: &mut [u8]) {
    if let Ok(size) = book_report::report(file, room) {
        let start = room.len() - size;
        io::write_all(1, &room[start..]);
    }
}

fn main() {
    let mut input = frames::input_room();
    let mut room = io::buffer();
    let count = io::read_full(0, &mut input);
    let mut rest = &input[..count];
    while let Some((file, after)) = frames::split_frame(rest) {
        write_report(file, &mut room);
        rest = after;
    }
}

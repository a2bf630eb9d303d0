// Framed input: each frame stands after its length in two bytes, high byte first.
#![tactic(auto)]

ghost use Rattle.std.specs.Prelude.{◌≡◌, ◌+◌, ◌*◌, ◌≤◌, ◌<◌, length, replicate, true, false, MatchOption};
ghost use Rattle.frames.specs.Frames.{input_room, no_frame, frame_at, frame_bytes, after_frame};

// Whether there is a frame, where its bytes start, and how many they are.
#[derive(Clone, Copy)]
pub struct Frame {
    pub found: bool,
    pub start: usize,
    pub size: usize,
}

// Room for the whole input of a program: what is read is outside every contract, what is done with it is not.
pub fn input_room() -> [u8; 262144]
    ensures zeros { result ≡ replicate input_room 0 }
    ensures size { length result ≡ input_room }
{
    [0; 262144]
}

fn size_of(high: u8, low: u8) -> usize
    ensures { result ≡ high * 256 + low }
{
    usize::from(high) * 256 + usize::from(low)
}

fn no_frame() -> Frame
    ensures { result ≡ no_frame }
{
    Frame {
        found: false,
        start: 0,
        size: 0,
    }
}

// The frame whose length stands at a place of the input. One that is cut short is none.
pub fn frame_at(input: &[u8], at: usize) -> Frame
    ensures frame { result ≡ frame_at input.now at }
    ensures inside { result.start + result.size ≤ length input.now }
{
    if input.len() < 2 {
        return no_frame();
    }
    if input.len() - 2 < at {
        return no_frame();
    }
    let start = at + 2;
    let size = size_of(input[at], input[at + 1]);
    if input.len() - start < size {
        return no_frame();
    }
    Frame {
        found: true,
        start,
        size,
    }
}

// The bytes of the frame that the input begins with, and what follows it; none where it is cut short.
pub fn split_frame(input: &[u8]) -> Option<(&[u8], &[u8])>
    ensures frame { MatchOption result ((frame_at input.now 0).found ≡ false)
        (λ parts. ((frame_at input.now 0).found ≡ true) × (parts.0.now ≡ frame_bytes input.now) × (parts.1.now ≡ after_frame input.now)) }
    ensures shorter { MatchOption result ((frame_at input.now 0).found ≡ false) (λ parts. length parts.1.now < length input.now) }
{
    let frame = frame_at(input, 0);
    if !frame.found {
        return None;
    }
    let (_, framed) = input.split_at(frame.start);
    Some(framed.split_at(frame.size))
}

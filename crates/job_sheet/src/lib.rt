// A whole job: its bytes in, its sheet out.
#![tactic(auto)]

ghost use Rattle.std.specs.Prelude.{◌≡◌, ◌≤◌, length};
ghost use Rattle.sheet_laws.specs.WholeJob.{
  sheet_number,
  sheet_text,
  sheet_memory,
  printed_answer,
  printed_memory,
};
ghost use Rattle.text_laws.specs.Put.{placed_of};
ghost use Rattle.record_sheet.specs.Answers.{answer_of, written_of};

use arithmetic::Refusal;
pub use record_sheet::Written;

// The sheet of a job, at the end of the lent room: 468,736 bytes are enough for every job, and fewer are refused with 6. 1 a job that is
// malformed; then the lowest of the causes of its fit, its bond and its option, but 13 before 12. A refusal leaves the room as it was.
pub fn sheet(job: &[u8], out: &mut [u8]) -> Result<usize, Refusal>
    ensures answer { written_of result ≡ answer_of (sheet_number job.now (length out.old)) (sheet_text job.now) }
    ensures memory { out.new ≡ sheet_memory job.now out.old }
{
    let reading = job_reader::read(job);
    if reading.number != 0 {
        return Err(Refusal::Job);
    }
    record_sheet::sheet_of_record(reading.job, out)
}

// What the sheet program prints of a job, at the end of the lent room, and where it starts: the sheet, or `refused` and the number. 6 where not
// even that line has room.
pub fn printed(job: &[u8], out: &mut [u8]) -> Result<usize, Refusal>
    ensures answer { placed_of result ≡ printed_answer job.now out.old }
    ensures within { (placed_of result).start ≤ length out.old }
    ensures memory { out.new ≡ printed_memory job.now out.old }
{
    let written = sheet(job, out);
    let room = out.len();
    match written {
        Ok(size) => Ok(room - size),
        Err(refusal) => text::refused_line(out, room, refusal.number()),
    }
}

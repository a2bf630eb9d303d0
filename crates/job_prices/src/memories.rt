// What is put into lent memory.
ghost use Rattle.std.specs.Prelude.{◌≡◌, ◌≤◌, length};
ghost use Rattle.arithmetic.specs.Row as rows;

// Copies the part to the start of the memory.
pub(crate) fn place(part: &[u64], memory: &mut [u64])
    requires { length part.now ≤ length memory.old }
    ensures { memory.new ≡ rows.place memory.old 0 part.now }
{
    memory[..part.len()].copy_from_slice(part);
}

// Bytes put into the lent output, from its end.
ghost use Rattle.std.specs.Prelude.{[], ◌∷◌, ◌<◌, ◌≤◌, length};
ghost use Rattle.laws.specs.Putting.{Put};

// Puts a byte right before place at. It goes left, where the record's `put_byte` goes right, and
// hands the place on, since the walks keep it in their state.
pub fn put(out: &mut [u8], at: usize, code: u8) -> usize
    requires { (0 < at) × (at ≤ length out.old) }
    ensures { Put (code ∷ []) out.old out.new at result }
{
    out[at - 1] = code;
    at - 1
}

// What the bytes before a place of a message say.
ghost use Rattle.std.specs.Prelude.{◌≡◌, ◌≤◌, length};
ghost use Rattle.letters.specs.Classes.{byte_before};
ghost use Rattle.stress.specs.Before.{class_before};

use letters::classify::class_of;
use spec::alphabet;

// The class of the byte before place i; a pause at the start of the message.
pub fn class_before(m: &[u8], i: usize) -> usize
    requires { i ≤ length m.now }
    ensures { result ≡ class_before m.now i }
{
    class_of(byte_before(m, i))
}

// The byte before place i; a pause at the start, as in its definition, and so no option.
pub fn byte_before(m: &[u8], i: usize) -> u8
    requires { i ≤ length m.now }
    ensures { result ≡ byte_before m.now i }
{
    if i == 0 {
        return alphabet::PAUSE;
    }
    m[i - 1]
}

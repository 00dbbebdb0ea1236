// Who may hear what (paper 02, request 7).
ghost use Rattle.std.specs.Prelude.{◌≡◌};
ghost use Rattle.spec.specs.Listeners.{may_hear, withheld};

use spec::{Listener, Refusal, numbers};

// Is the listener in the set of a phrase? Each has a bit; the set's other bits are passed over. It
// stays the byte that the record and C have.
pub fn may_hear(listener: Listener, set: u8) -> bool
    ensures { result ≡ may_hear listener set }
{
    match listener {
        Listener::Pump => set % 2 == 1,
        Listener::Road => set / 2 % 2 == 1,
        Listener::Dispatch => set / 4 % 2 == 1,
    }
}

// Why a listener is turned away, alike for all that is not for him.
pub fn not_for_listener() -> Refusal
    ensures { result ≡ withheld }
{
    Refusal {
        number: numbers::NOT_FOR_LISTENER,
        place: 0,
    }
}

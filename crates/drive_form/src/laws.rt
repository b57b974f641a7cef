// A law of the bytes that a host tells: a function that does nothing, whose clause is a theorem. It
// is for callers' proofs; no code calls it.
ghost use Rattle.std.specs.Prelude.{◌≡◌, List, ℕ};
ghost use Rattle.drive_form.specs.Form.{IsHostTold, HostTold};

/// Bytes tell one thing: what spells to them is all that does.
pub fn read_once()
    ensures { (bytes : List ℕ) (one other : HostTold) → IsHostTold bytes one →
        IsHostTold bytes other → one ≡ other }
{}

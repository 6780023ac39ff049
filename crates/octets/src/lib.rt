// Octets copied into a lent buffer, and looked for in a text.
#![tactic(auto)]

ghost use Rattle.std.specs.Prelude.{◌≡◌, ◌≢◌, ◌≤◌, ◌<◌, ◌++◌, ℕ, min, length, take, drop, slice_index, unwrap_or, IfSome};

// Copies octets to the front of a buffer, as many as fit, and answers how many they are.
pub fn copy(from: &[u8], out: &mut [u8]) -> usize
    ensures count { result ≡ min (length from.now) (length out.old) }
    ensures copied { out.new ≡ take (length out.old) from.now ++ drop (length from.now) out.old }
    ensures whole { length from.now ≤ length out.old → out.new ≡ from.now ++ drop (length from.now) out.old }
{
    let n = from.len().min(out.len());
    out[..n].copy_from_slice(&from[..n]);
    n
}

// The first place of an octet in a text, if it is there.
pub fn find(text: &[u8], octet: u8) -> Option<usize>
    ensures inside { IfSome result (λ i. i < length text.now) }
    ensures found { IfSome result (λ i. slice_index text.now i ≡ octet) }
    ensures first { (k : ℕ) → k < unwrap_or result (length text.now) → slice_index text.now k ≢ octet }
{
    text.iter().position(|&it| it == octet)
}

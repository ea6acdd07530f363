// A list copied into a part of a lent slice.
// Beside it, proofs/Fill.antt has the laws of writing one list over a part of another, for every crate that fills a lent slice.
#![tactic(auto)]

ghost use Rattle.std.specs.Prelude.{◌≡◌, ◌+◌, ◌≤◌, length};
ghost use Rattle.std.proofs.lemmas.List.Edits.{sets};

// All of `src`, over `dst` from place `to` on: who fills a slice in parts goes on with it whole.
#[tactic(auto, using(crate::proofs::Fill::put_sets))]
pub fn copy<T: Copy>(src: &[T], dst: &mut [T], to: usize)
    requires { to + length src.now ≤ length dst.old }
    ensures { dst.new ≡ sets dst.old to src.now }
{
    dst[to..to + src.len()].copy_from_slice(src);
}

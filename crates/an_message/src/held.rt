ghost use Rattle.std.specs.Prelude.{◌≡◌, ◌≤◌, drop, length};

#[tactic(auto, using(crate::proofs::HeldLemmas::rotated))]
/// Removes so many bytes from the front of what is held.
pub fn remove_front(held: &mut Vec<u8>, count: usize)
    requires { count ≤ length held.old.items }
    ensures { held.new.items ≡ drop count held.old.items }
{
    let rest = held.len() - count;
    held.rotate_left(count);
    held.truncate(rest);
}

ghost use Rattle.std.specs.Prelude.{◌≡◌, ◌+◌, ◌≤◌, drop, length, IsTrue, option_map};
ghost use Rattle.an_message.specs.Framing.{begins_with_end, head_length};

#[tactic(auto, using(crate::proofs::HeadLemmas::scanning))]
/// Where the first head ends, in bytes of which none ends before `from`.
pub(crate) fn head_end(bytes: &[u8], from: usize) -> Option<usize>
    requires { from ≤ length bytes.now }
    ensures { result ≡ option_map (λ n. from + n) (head_length (drop from bytes.now)) }
{
    for at in from..bytes.len() {
        if begins_with_end(&bytes[at..]) {
            return Some(at + 4);
        }
    }
    None
}

fn begins_with_end(bytes: &[u8]) -> bool
    ensures within { IsTrue result → 4 ≤ length bytes.now }
    ensures end { result ≡ begins_with_end bytes.now }
{
    bytes.starts_with(b"\r\n\r\n")
}

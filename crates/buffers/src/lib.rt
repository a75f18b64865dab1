// Framebuffers compared.
#![tactic(auto)]

ghost use Rattle.std.specs.Prelude.{◌≡◌};
ghost use Rattle.buffers.specs.Differences.{differences};

// How many pixels differ.
pub fn count_differences(a: &[u8], b: &[u8]) -> usize
    ensures { result ≡ differences a.now b.now }
{
    let mut n = 0;
    for i in 0..a.len().min(b.len()) {
        if a[i] != b[i] {
            n += 1;
        }
    }
    n
}

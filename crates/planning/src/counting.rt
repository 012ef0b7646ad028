// The chunks that counts of entries take.
ghost use Rattle.std.specs.Prelude.{◌≡◌, ℕ, ◌≤◌, length, get_or};
ghost use Rattle.planning.specs.Chunks.{chunks_for};

// The sum of the counts divided by the ratchet, each rounded up.
pub fn chunks_for(counts: &[u32], ratchet: u32) -> u32
    requires { (length counts.now ≤ 64) × ((i : ℕ) → get_or counts.now i 0 ≤ 65536) × (1 ≤ ratchet) × (ratchet ≤ 256) }
    ensures { result ≡ chunks_for counts.now ratchet }
{
    counts.iter().map(|count| count.div_ceil(ratchet)).sum()
}

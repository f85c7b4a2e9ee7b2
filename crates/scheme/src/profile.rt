// The numbers of a scheme. The struct's invariant has all their ranges, so that no call of a box checks them.

ghost use Rattle.std.specs.Prelude.{◌≡◌, ℕ, ◌*◌, ◌<◌, ◌≤◌, length, slice_index};

// r: bits of a row. d: positions of each half of a key. t: ones of an error row.
// k: rounds of an unsealing, each with a threshold of its own; the entries past k are 0.
// An array and its `k`, and no `ArrayVec`: a profile is copied wherever a box is opened, and an `ArrayVec` is not `Copy`.
#[derive(Clone, Copy, Debug, PartialEq, Eq)]
pub struct Profile {
    pub r: u32,
    pub d: u32,
    pub t: u32,
    pub k: u32,
    pub thresholds: [u32; 16],
    ghost r_range: { (3 ≤ r) × (r ≤ 16000) },
    ghost d_range: { (1 ≤ d) × (d ≤ 63) × (d ≤ r) },
    ghost t_range: { (1 ≤ t) × (t ≤ 255) × (t ≤ 2 * r) },
    ghost k_range: { (1 ≤ k) × (k ≤ 16) },
    ghost entries: { length thresholds ≡ 16 },
    ghost used: { (i : ℕ) → i < k → (1 ≤ slice_index thresholds i) × (slice_index thresholds i ≤ d) },
    ghost unused: { (i : ℕ) → k ≤ i → slice_index thresholds i ≡ 0 },
}

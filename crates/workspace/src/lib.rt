//! A lent byte buffer as rows of 128 bits: row `k` is the sixteen bytes from `16 * k` on, the lowest first.
#![tactic(auto)]

ghost use Rattle.std.specs.Prelude.{◌≡◌, ℕ, length, if◌then◌else◌, ◌≢◌};
ghost use Rattle.workspace.specs.Rows.{within, row_in};

/// Row `k` of the buffer, or 0 where the buffer has no such row.
pub fn row(work: &[u8], k: usize) -> u128
    ensures { result ≡ row_in work.now k }
{
    let (rows, _) = work.as_chunks::<16>();
    match rows.get(k) {
        Some(row) => u128::from_le_bytes(*row),
        None => 0,
    }
}

/// Makes row `k` of the buffer `bits`, where the buffer has such a row, and leaves the others.
pub fn put_row(work: &mut [u8], k: usize, bits: u128)
    ensures here { row_in work.new k ≡ (if within work.old k then bits else 0) }
    ensures others { (j : ℕ) → (j ≢ k) → row_in work.new j ≡ row_in work.old j }
    ensures len { length work.new ≡ length work.old }
{
    // By its range: of a slice that `as_chunks_mut` was asked of, a proof knows nothing afterwards.
    if k < work.len() / 16 {
        work[16 * k..16 * k + 16].copy_from_slice(&bits.to_le_bytes());
    }
}

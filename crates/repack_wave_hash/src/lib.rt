// The bytes of a wave: whether two waves have the same, and a hash of them.
#![tactic(auto)]

ghost use Rattle.std.specs.Prelude.{◌≡◌, ◌+◌, ◌≤◌, ◌<◌, length};
ghost use Rattle.base_format.specs.Bytes.{same_bytes};
ghost use Rattle.base_format.specs.Size.{wave_records_size};
ghost use Rattle.base_master.specs.Places.{wave_at};
ghost use Rattle.repack_wave_hash.specs.Hash.{mixed, bucket_at};

use base_format::{RECORD_SIZE, WAVE_SIZE};

// Whether two waves have the same bytes.
#[tactic(auto, using(base_master::proofs::Pieces::same_next, crate::proofs::Hash::same_end))]
pub fn same_wave(file: &[u8], a: usize, b: usize) -> bool
    requires { (a + wave_records_size ≤ length file.now) × (b + wave_records_size ≤ length file.now) }
    ensures { result ≡ same_bytes (wave_at file.now a) (wave_at file.now b) }
{
    let mut one = a;
    let mut other = b;
    for _i in 0..WAVE_SIZE {
        if file[one + 4] != file[other + 4] {
            return false;
        }
        one += RECORD_SIZE;
        other += RECORD_SIZE;
    }
    true
}

// A hash with four bytes more.
#[tactic(auto, unfolding(crate::specs::Hash::mixed))]
fn mix_four(hash: u64, a: u8, b: u8, c: u8, d: u8) -> u64
    requires { hash < 4294967296 }
    ensures { (result ≡ mixed hash a b c d) × (result < 4294967296) }
{
    let four = a as u64 + b as u64 * 256 + c as u64 * 65536 + d as u64 * 16777216;
    (hash + four) * 1640531527 % 4294967296
}

// The bucket of a wave.
#[tactic(auto, unfolding(crate::specs::Hash::bucket_at), using(crate::proofs::Hash::hashed_next, crate::proofs::Hash::hashed_end))]
pub fn bucket(file: &[u8], at: usize) -> usize
    requires { at + wave_records_size ≤ length file.now }
    ensures { result ≡ bucket_at file.now at }
{
    let mut hash = 0;
    let mut place = at;
    for _i in 0..64usize {
        hash = mix_four(
            hash,
            file[place + 4],
            file[place + 9],
            file[place + 14],
            file[place + 19],
        );
        place += 20;
    }
    (hash / 262144) as usize
}

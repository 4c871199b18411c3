// Whether two slices have the same bytes.
#![tactic(auto)]

ghost use Rattle.std.specs.Prelude.{◌≡◌};
ghost use Rattle.base_format.specs.Bytes.{same_bytes};

// Equally many bytes, and each is the same.
#[tactic(auto, using(crate::proofs::Equal::bytes_equal))]
pub fn same_bytes(a: &[u8], b: &[u8]) -> bool
    ensures { result ≡ same_bytes a.now b.now }
{
    a == b
}

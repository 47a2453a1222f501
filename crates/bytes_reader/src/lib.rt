// Numbers of several bytes, the low byte first, read at a position of a slice. Each function answers for any position: past the
// slice's end a byte reads as 0.
#![tactic(auto)]

ghost use Rattle.std.specs.Prelude.{◌≡◌, ◌+◌, EachIndex, slice_index};
ghost use Rattle.bytes_rules.specs.Bytes.{byte_at, two_at, four_at, eight_at};

// The N bytes from a position on, with 0 for each that is past the slice's end. Where the slice has them all they are read at once.
fn bytes_from<const N: usize>(bytes: &[u8], i: usize) -> [u8; N]
    ensures { EachIndex result (λ k. slice_index result k ≡ byte_at bytes.now (i + k)) }
{
    let rest = &bytes[i.min(bytes.len())..];
    if let Some(whole) = rest.first_chunk() {
        return *whole;
    }
    let mut read = [0; N];
    read[..rest.len()].copy_from_slice(rest);
    read
}

pub fn byte_at(bytes: &[u8], i: usize) -> u8
    ensures { result ≡ byte_at bytes.now i }
{
    bytes.get(i).copied().unwrap_or(0)
}

pub fn two_at(bytes: &[u8], i: usize) -> u16
    ensures { result ≡ two_at bytes.now i }
{
    u16::from_le_bytes(bytes_from(bytes, i))
}

pub fn four_at(bytes: &[u8], i: usize) -> u32
    ensures { result ≡ four_at bytes.now i }
{
    u32::from_le_bytes(bytes_from(bytes, i))
}

pub fn eight_at(bytes: &[u8], i: usize) -> u64
    ensures { result ≡ eight_at bytes.now i }
{
    u64::from_le_bytes(bytes_from(bytes, i))
}

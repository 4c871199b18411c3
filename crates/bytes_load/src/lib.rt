// Numbers in up to four bytes of a file that are all there, highest byte first.
#![tactic(auto)]

ghost use Rattle.std.specs.Prelude.{◌≡◌, ◌+◌, ◌^◌, ◌≤◌, ◌<◌, length};
ghost use Rattle.base_format.specs.Bytes.{be};

// The bytes one by one, from the highest down.
fn load_each<const WIDTH: usize>(file: &[u8], at: usize) -> u32
    requires { (WIDTH ≤ 4) × (at + WIDTH ≤ length file.now) }
    ensures { (result ≡ be WIDTH file.now at) × (result < 256 ^ WIDTH) }
{
    let mut value = 0;
    for i in 0..WIDTH {
        value = value * 256 + file[at + i] as u32;
    }
    value
}

// The number in as many bytes as the width says. A width of 2 or 4 compiles to one load. Three bytes are taken one by one: they are an
// address, and where a caller reads the target in front of it too, the compiler makes one load of all four.
pub fn load<const WIDTH: usize>(file: &[u8], at: usize) -> u32
    requires { (WIDTH ≤ 4) × (at + WIDTH ≤ length file.now) }
    ensures { (result ≡ be WIDTH file.now at) × (result < 256 ^ WIDTH) }
{
    if WIDTH == 3 {
        return load_each::<WIDTH>(file, at);
    }
    let mut bytes = [0; 4];
    bytes[4 - WIDTH..].copy_from_slice(&file[at..at + WIDTH]);
    u32::from_be_bytes(bytes)
}

// The address test of the loop.
#![tactic(auto)]

ghost use Rattle.std.specs.Prelude.{◌≡◌};
ghost use Rattle.address.specs.Address.{valid_address};

// The loop addresses without 00h as a map of bits: bit k of word j stands for 64 j + k.
const MAP: [u64; 4] = [
    0x167e7ee8e9818116,
    0x167e7ee8167e7ee8,
    0x167e7ee8e9818117,
    0x00008117167e7ee8,
];

// Whether the number is a valid address: upper bytes 0000h and a low byte that the map has.
#[tactic(auto, using(crate::proofs::Map::map_right, crate::proofs::Map::none_above))]
pub fn valid_address(n: u32) -> bool
    ensures { result ≡ valid_address n }
{
    if 256 <= n {
        return false;
    }
    let j = (n / 64) as usize;
    let k = (n % 64) as u64;
    (MAP[j] >> k) % 2 == 1
}

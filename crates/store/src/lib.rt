// Numbers, clearing and copying in a slice of bytes that is lent. Every write is a splice into the list of its bytes.
#![tactic(auto)]

ghost use Rattle.std.specs.Prelude.{◌≡◌, cond, [], ◌∷◌, ◌+◌, ◌-◌, ◌≤◌, ◌<◌, length, get_or};
ghost use Rattle.laws.specs.Bytes.{part, splice, zeros, le16, le32, u16_at, u32_at};

// NUMBERS

// 1 if b, else 0.
pub fn one_if(b: bool) -> u8
    ensures { (result ≡ cond b 1 0) × (result ≤ 1) }
{
    u8::from(b)
}

// The byte at `at`.
pub fn get_u8(bytes: &[u8], at: usize) -> u8
    requires { at + 1 ≤ length bytes.now }
    ensures { result ≡ get_or bytes.now at 0 }
{
    bytes[at]
}

// The number that two bytes from `at` on spell, the lowest first.
#[tactic(auto, using(laws::proofs::Numbers::u16_sum))]
pub fn get_u16(bytes: &[u8], at: usize) -> u16
    requires { at + 2 ≤ length bytes.now }
    ensures { result ≡ u16_at bytes.now at }
{
    u16::from_le_bytes([bytes[at], bytes[at + 1]])
}

// The number that four bytes from `at` on spell, the lowest first.
#[tactic(auto, using(laws::proofs::Numbers::u32_sum))]
pub fn get_u32(bytes: &[u8], at: usize) -> u32
    requires { at + 4 ≤ length bytes.now }
    ensures { result ≡ u32_at bytes.now at }
{
    u32::from_le_bytes([bytes[at], bytes[at + 1], bytes[at + 2], bytes[at + 3]])
}

// Writes one byte at `at`.
#[tactic(auto, using(laws::proofs::Splices::set_splice))]
pub fn put_u8(store: &mut [u8], at: usize, b: u8)
    requires { at + 1 ≤ length store.old }
    ensures { store.new ≡ splice store.old at (b ∷ []) }
{
    store[at] = b;
}

// Writes four bytes from `at` on.
#[tactic(auto, using(laws::proofs::Splices::set_splice, laws::proofs::Splices::splice_snoc))]
pub fn put_4(store: &mut [u8], at: usize, a: u8, b: u8, c: u8, d: u8)
    requires { at + 4 ≤ length store.old }
    ensures { store.new ≡ splice store.old at (a ∷ b ∷ c ∷ d ∷ []) }
{
    store[at] = a;
    store[at + 1] = b;
    store[at + 2] = c;
    store[at + 3] = d;
}

// Writes v as two bytes from `at` on, the lowest first.
pub fn put_u16(store: &mut [u8], at: usize, v: u16)
    requires { at + 2 ≤ length store.old }
    ensures { store.new ≡ splice store.old at (le16 v) }
{
    let [low, high] = v.to_le_bytes();
    put_u8(store, at, low);
    put_u8(store, at + 1, high);
}

// Writes v as four bytes from `at` on, the lowest first.
#[tactic(auto, using(laws::proofs::Numbers::le32_bytes))]
pub fn put_u32(store: &mut [u8], at: usize, v: u32)
    requires { at + 4 ≤ length store.old }
    ensures { store.new ≡ splice store.old at (le32 v) }
{
    let [a, b, c, d] = v.to_le_bytes();
    put_4(store, at, a, b, c, d);
}

// CLEARING

// Zeros from `from` up to `to`.
#[tactic(auto, using(laws::proofs::Splices::lent_whole), unfolding(laws::specs::Bytes::zeros))]
pub fn clear_between(store: &mut [u8], from: usize, to: usize)
    requires { (from ≤ to) × (to ≤ length store.old) }
    ensures { store.new ≡ splice store.old from (zeros (to - from)) }
{
    store[from..to].fill(0);
}

// Zeros from `from` up to the end.
pub fn clear(store: &mut [u8], from: usize)
    requires { from ≤ length store.old }
    ensures { store.new ≡ splice store.old from (zeros (length store.old - from)) }
{
    let end = store.len();
    clear_between(store, from, end);
}

// COPYING

// Copies n bytes of src from `from` on into dst from `at` on: byte by byte, since `copy_from_slice` would make the static library need `memmove` from its caller.
pub fn copy(src: &[u8], from: usize, dst: &mut [u8], at: usize, n: usize)
    requires source { from + n ≤ length src.now }
    requires target { at + n ≤ length dst.old }
    ensures { dst.new ≡ splice dst.old at (part src.now from n) }
{
    for i in 0..n {
        dst[at + i] = src[from + i];
    }
}

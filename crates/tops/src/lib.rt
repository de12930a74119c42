// The lowest key, found by the lowest keys of blocks of 64.
#![tactic(auto)]

ghost use Rattle.std.specs.Prelude.{◌≡◌, ℕ, ◌+◌, ◌*◌, ◌≤◌, ◌<◌, length, set};
ghost use Rattle.tops.specs.Tops.{LeastIn, Least, Top, Tops};

// How many keys stand in a block.
const BLOCK: usize = 64;

// Where the lowest of the keys from a to z - 1 stands.
fn lowest_between(keys: &[u32], a: usize, z: usize) -> usize
    requires { (a < z) × (z ≤ length keys.now) }
    ensures { LeastIn keys.now a z result }
{
    let mut best = a;
    let mut least = keys[a];
    for i in a + 1..z {
        let key = keys[i];
        if key < least {
            best = i;
            least = key;
        }
    }
    best
}

// The end of block b.
fn end_of(keys: &[u32], b: usize) -> usize
    requires { (64 * b < length keys.now) × (length keys.now ≤ 65535) }
    ensures { (64 * b < result) × (result ≤ length keys.now) × (result ≤ 64 * b + 64) × ((g : ℕ) → g < length keys.now → g < 64 * b + 64 → g < result) }
{
    (BLOCK * b + BLOCK).min(keys.len())
}

// The lowest key of block b.
fn top_of(keys: &[u32], b: usize) -> u32
    requires { (64 * b < length keys.now) × (length keys.now ≤ 65535) }
    ensures { Top keys.now b result }
{
    let z = end_of(keys, b);
    let i = lowest_between(keys, BLOCK * b, z);
    keys[i]
}

// The lowest keys of all blocks.
pub fn fill_tops(keys: &[u32], tops: &mut [u32])
    requires { (length keys.now ≤ 65535) × (length keys.now ≤ 64 * length tops.old) × (64 * length tops.old < length keys.now + 64) }
    ensures { Tops keys.now tops.new }
{
    for (b, top) in tops.iter_mut().enumerate() {
        *top = top_of(keys, b);
    }
}

// A key stored, and its block's lowest with it: told anew from the block only where the lowest itself went up.
pub fn store_key(keys: &mut [u32], tops: &mut [u32], h: usize, v: u32)
    requires { (h < length keys.old) × (length keys.old ≤ 65535) × Tops keys.old tops.old }
    ensures { (keys.new ≡ set keys.old h v) × Tops keys.new tops.new }
{
    let b = h / BLOCK;
    let old = keys[h];
    let top = tops[b];
    keys[h] = v;
    if v <= top {
        tops[b] = v;
    } else if old == top {
        tops[b] = top_of(keys, b);
    }
}

// Where the lowest key stands.
pub fn lowest_key(keys: &[u32], tops: &[u32]) -> usize
    requires { (0 < length keys.now) × (length keys.now ≤ 65535) × Tops keys.now tops.now }
    ensures { Least keys.now result }
{
    let b = lowest_between(tops, 0, tops.len());
    let z = end_of(keys, b);
    let a = BLOCK * b;
    lowest_between(keys, a, z)
}

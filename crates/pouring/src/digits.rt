// The digits of a number and the bytes of a word, put into a room that suffices: document 01, "Text". Every answer is the place behind them.
ghost use Rattle.std.specs.Prelude.{◌≡◌, ℕ, ◌+◌, ◌≤◌, ◌<◌, length};
ghost use Rattle.shapes.specs.Bytes.{digits_of, word_bytes, digits};
ghost use Rattle.pouring.specs.Poured.{poured, low, four};

// How many digits n has in a base, at most `most`.
pub fn digit_count(n: u64, base: u64, most: usize) -> usize
    requires { 0 < base }
    ensures { (result ≤ most) × ((from : ℕ) → result ≡ length (digits_of base from most n)) }
{
    let mut left = n;
    for count in 0..most {
        if left < base {
            return count + 1;
        }
        left /= base;
    }
    most
}

// The lowest digits of n, from the last to the first; `from` is the byte of digit 0.
fn put_low(out: &mut [u8], at: usize, n: u64, base: u64, from: u64, count: usize)
    requires { (0 < base) × (from + base ≤ 256) × (at + count ≤ length out.old) }
    ensures { out.new ≡ poured out.old at (low base from count n) }
{
    let mut left = n;
    for j in (0..count).rev() {
        out[at + j] = (from + left % base) as u8;
        left /= base;
    }
}

// The bytes of a word. Most keys of a long text have one.
pub fn put_word(out: &mut [u8], at: usize, word: u64) -> usize
    requires { at + 8 ≤ length out.old }
    ensures { (result ≡ at + length (word_bytes word)) × (out.new ≡ poured out.old at (word_bytes word)) }
{
    if word < 256 {
        out[at] = word as u8;
        return at + 1;
    }
    let count = digit_count(word, 256, 8);
    put_low(out, at, word, 256, 0, count);
    at + count
}

// Four digits, leading zeros among them: their bytes as one number in base 256, the first one lowest, by products in place of quotients.
fn put_four(out: &mut [u8], at: usize, n: u64) -> usize
    requires { (n < 10000) × (at + 4 ≤ length out.old) }
    ensures { (result ≡ at + 4) × (out.new ≡ poured out.old at (four n)) }
{
    let a = 6554 * n / 65536;
    let b = 5243 * n / 524288;
    let c = 8389 * n / 8388608;
    let v = 808464432 + 16777216 * n - 167706624 * a - 655104 * b - 2559 * c;
    let w = v / 256;
    let u = w / 256;
    out[at] = (v % 256) as u8;
    out[at + 1] = (w % 256) as u8;
    out[at + 2] = (u % 256) as u8;
    out[at + 3] = (u / 256) as u8;
    at + 4
}

// The digits of a number that has at most four; two are bytes of one number, as four are.
fn put_few(out: &mut [u8], at: usize, n: u64) -> usize
    requires { (n < 10000) × (at + 4 ≤ length out.old) }
    ensures { (result ≡ at + length (digits n)) × (out.new ≡ poured out.old at (digits n)) }
{
    if n < 10 {
        out[at] = (48 + n) as u8;
        return at + 1;
    }
    if n < 100 {
        let v = 12336 + 256 * n - 2559 * (205 * n / 2048);
        out[at] = (v % 256) as u8;
        out[at + 1] = (v / 256) as u8;
        return at + 2;
    }
    if n < 1000 {
        out[at] = (48 + n / 100) as u8;
        out[at + 1] = (48 + n / 10 % 10) as u8;
        out[at + 2] = (48 + n % 10) as u8;
        return at + 3;
    }
    put_four(out, at, n)
}

// The digits of a number. Up to eight go four at a time, with no loop.
pub fn put_digits(out: &mut [u8], at: usize, n: u64) -> usize
    requires { at + 19 ≤ length out.old }
    ensures { (result ≡ at + length (digits n)) × (out.new ≡ poured out.old at (digits n)) }
{
    if n < 10000 {
        return put_few(out, at, n);
    }
    if n < 100000000 {
        let next = put_few(out, at, n / 10000);
        return put_four(out, next, n % 10000);
    }
    let count = digit_count(n, 10, 19);
    put_low(out, at, n, 10, 48, count);
    at + count
}

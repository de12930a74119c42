// What stands at a place of a slice, where there may be no such place.
ghost use Rattle.std.specs.Prelude.{◌≡◌, get_or, set};

// The entry at k, and `otherwise` past the end.
pub fn at_or<T: Copy>(list: &[T], k: u16, otherwise: T) -> T
    ensures { result ≡ get_or list.now k otherwise }
{
    list.get(k as usize).copied().unwrap_or(otherwise)
}

// The number at k, and 0 past the end.
pub fn at(list: &[u16], k: u16) -> u16
    ensures { result ≡ get_or list.now k 0 }
{
    at_or(list, k, 0)
}

// v at k, if there is such a place.
pub fn put<T: Copy>(list: &mut [T], k: u16, v: T)
    ensures { list.new ≡ set list.old k v }
{
    let i = k as usize;
    if i < list.len() {
        list[i] = v;
    }
}

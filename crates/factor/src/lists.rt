// Lists of keys and of numbers: whether keys rise and are known, the lookup of a key, and a list laid into a store.
ghost use Rattle.std.specs.Prelude.{◌≡◌, ◌+◌, ◌<◌, ◌≤◌, length};
ghost use Rattle.factor.specs.Factor as spec;

// All of src goes into dst from a place on.
pub fn copy_in(dst: &mut [f64], at: usize, src: &[f64])
    requires { at + length src.now ≤ length dst.old }
    ensures { dst.new ≡ spec.lay dst.old at src.now }
{
    dst[at..at + src.len()].copy_from_slice(src);
}

// The key at a place is above the one before it.
#[tactic(auto, unfolding(crate::specs::Factor::above))]
fn above(keys: &[usize], place: usize) -> bool
    requires { place < length keys.now }
    ensures { result ≡ spec.above keys.now place }
{
    place == 0 || keys[place - 1] < keys[place]
}

// The keys are strictly rising.
pub fn rising(keys: &[usize]) -> bool
    ensures { result ≡ spec.rising keys.now }
{
    (0..keys.len()).all(|place| above(keys, place))
}

// Each key is one of so many variables.
pub fn known(variables: usize, keys: &[usize]) -> bool
    ensures { result ≡ spec.known variables keys.now }
{
    keys.iter().all(|&key| key < variables)
}

// The answer of a lookup: where the key stands, and how many keys were read.
#[derive(Drop)]
pub struct Looked {
    pub place: Option<usize>,
    pub read: usize,
}

// Looks for a key in keys that rise: the first that isn't below it ends the search.
pub fn lookup(keys: &[u8], key: usize) -> Looked
    ensures { result ≡ spec.lookup keys.now key }
{
    for (place, &here) in keys.iter().enumerate() {
        let here = usize::from(here);
        if key <= here {
            let read = place + 1;
            let place = if key < here { None } else { Some(place) };
            return Looked { place, read };
        }
    }
    Looked {
        place: None,
        read: keys.len(),
    }
}

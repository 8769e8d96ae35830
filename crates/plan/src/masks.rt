// Sets as masks: of one member, and of all members of several sets.
ghost use Rattle.std.specs.Prelude.{◌≡◌, ◌^◌, ◌≤◌, ◌<◌, length};
ghost use Rattle.plan.specs.Mask as spec;

// The set of one key, or of one message.
pub fn single(k: usize) -> u32
    requires { k < 32 }
    ensures { result ≡ 2 ^ k }
{
    1u32 << k
}

// The set of one original.
pub fn single64(i: usize) -> u64
    requires { i < 64 }
    ensures { result ≡ 2 ^ i }
{
    1u64 << i
}

// All members of the sets whose numbers stand from one place to another.
pub fn union<'a>(sets: &'a [u32], numbers: &'a [u8], from: usize, to: usize) -> u32
    requires numbers { spec.Numbers (length sets.now) to numbers.now }
    requires from_le_to { from ≤ to }
    ensures { spec.Union sets.now from to numbers.now result }
{
    let mut r = 0u32;
    for &n in &numbers[from..to] {
        r |= sets[usize::from(n)];
    }
    r
}

// Numbers that the checks keep below a limit.
ghost use Rattle.std.specs.Prelude.{◌≡◌, ◌%◌, ◌^◌, ◌<◌, ◌≤◌};

// A number that the checks keep below `limit`, and so itself: the remainder is for those that were not checked.
pub(crate) fn reduced(n: u64, limit: u64) -> u32
    requires { (0 < limit) × (limit ≤ 2 ^ 32) }
    ensures { result ≡ n % limit }
{
    (n % limit) as u32
}

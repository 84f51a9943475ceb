// The order in which things stand, beside that of nodes, which stand by their numbers.
ghost use Rattle.std.specs.Prelude.{◌≡◌};
ghost use Rattle.ktm_keyed.specs.Keyed.{comes_before};
ghost use Rattle.ktm_world.specs.Durable.{is_before};

use ktm_base::Id;

/// Does the first key come before the second, by their bytes.
pub fn is_key_before(a: &[u8], b: &[u8]) -> bool
    ensures { result ≡ comes_before a.now b.now }
{
    a.cmp(b).is_lt()
}

/// Does the first Id come before the second: by its boot, and then by its number.
pub fn is_id_before(a: Id, b: Id) -> bool
    ensures { result ≡ is_before a b }
{
    a.boot < b.boot || (a.boot == b.boot && a.number < b.number)
}

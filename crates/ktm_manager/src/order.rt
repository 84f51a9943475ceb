// Ids in their order.
ghost use Rattle.std.specs.Prelude.{◌≡◌};
ghost use Rattle.ktm_manager.specs.Rising.{id_order};

use ktm_base::Id;
use std::cmp::Ordering;

/// Which of two Ids comes first: by the boot, and then by the number.
pub fn order_of(a: Id, b: Id) -> Ordering
    ensures { result ≡ id_order a b }
{
    a.boot.cmp(&b.boot).then(a.number.cmp(&b.number))
}

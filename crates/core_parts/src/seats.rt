//! Changes that seats of a table make with no step: the rule is asked, and no word is read.
ghost use Rattle.std.specs.Prelude.{◌≡◌, [], ◌∷◌};
ghost use Rattle.atomic_table.specs.Table.{Joins, Me, Splits};
ghost use Rattle.core_parts.specs.Changes.{Stirs};

use atomic_table::{Badge, Join, Seat, Shared, Split, TableRule};

/// A seat takes in another's view, and the other is spent. No word is read.
#[inline]
pub fn join_views<S, V, K, P: TableRule<S, V, K>, M: Join<V>>(
    table: &Shared<S, V, K, P>,
    seat: &mut Seat<S, V>,
    other: &mut Seat<S, V>,
)
    requires { (seat.old.table_id ≡ table.now.table_id) × (other.old.table_id ≡ table.now.table_id) × Joins (P.holds table.now.key) seat.old.id seat.old.me.0 other.old.id other.old.me.0 (M.both seat.old.me.0 other.old.me.0) M.spent }
    ensures { (seat.new.table_id ≡ seat.old.table_id) × (seat.new.id ≡ seat.old.id) × (seat.new.me ≡ (M.both seat.old.me.0 other.old.me.0, seat.old.me.1)) }
{}

/// A seat's view is cut in two, and the badge becomes a seat that has the second. No word is read.
#[inline]
pub fn split_views<S, V, K, P: TableRule<S, V, K>, M: Split<V>>(
    table: &Shared<S, V, K, P>,
    seat: &mut Seat<S, V>,
    other: &mut Badge<V>,
)
    requires { (seat.old.table_id ≡ table.now.table_id) × Splits (P.holds table.now.key) seat.old.id seat.old.me.0 (M.left seat.old.me.0) (M.right seat.old.me.0) }
    ensures { (seat.new.table_id ≡ seat.old.table_id) × (seat.new.id ≡ seat.old.id) × (seat.new.me ≡ (M.left seat.old.me.0, seat.old.me.1)) × (other.new.table_id ≡ seat.old.table_id) × (other.new.views ≡ M.right seat.old.me.0 ∷ []) }
{}

/// Steps by a seat, and gives the new one.
#[inline]
pub fn split_seat<S, V, K, P: TableRule<S, V, K>, M: Split<V>>(
    table: &Shared<S, V, K, P>,
    seat: &mut Seat<S, V>,
) -> Seat<S, V>
    requires { (seat.old.table_id ≡ table.now.table_id) × Splits (P.holds table.now.key) seat.old.id seat.old.me.0 (M.left seat.old.me.0) (M.right seat.old.me.0) }
    ensures { (seat.new.table_id ≡ seat.old.table_id) × (seat.new.id ≡ seat.old.id) × (seat.new.me ≡ (M.left seat.old.me.0, seat.old.me.1)) × (result.table_id ≡ seat.old.table_id) × (result.me ≡ (M.right seat.old.me.0, [])) }
{
    let mut other = Badge::blank();
    split_views::<S, V, K, P, M>(table, seat, &mut other);
    other.into_seat()
}

/// A seat takes in another's view, which is spent.
#[inline]
pub fn join_seat<S, V, K, P: TableRule<S, V, K>, M: Join<V>>(
    table: &Shared<S, V, K, P>,
    seat: &mut Seat<S, V>,
    mut other: Seat<S, V>,
)
    requires { (seat.old.table_id ≡ table.now.table_id) × (other.table_id ≡ table.now.table_id) × (other.me.1 ≡ []) × Joins (P.holds table.now.key) seat.old.id seat.old.me.0 other.id other.me.0 (M.both seat.old.me.0 other.me.0) M.spent }
    ensures { (seat.new.table_id ≡ seat.old.table_id) × (seat.new.id ≡ seat.old.id) × (seat.new.me ≡ (M.both seat.old.me.0 other.me.0, seat.old.me.1)) }
{
    join_views::<S, V, K, P, M>(table, seat, &mut other);
}

/// A change of a seat, which tells its caller of the seat before and after.
pub trait Change<S, V> {
    ghost then: { Me S V → Me S V → Type 0 };
}

/// A seat's view changes, and slots are taken or given back, as the rule allows. No word is read.
#[inline]
pub fn change_view<S, V, K, P: TableRule<S, V, K>, M: Change<S, V>>(
    table: &Shared<S, V, K, P>,
    seat: &mut Seat<S, V>,
)
    requires { (seat.old.table_id ≡ table.now.table_id) × Stirs (P.holds table.now.key) table.now.table_id.slots seat.old.id seat.old.me (M.then seat.old.me) }
    ensures { (seat.new.table_id ≡ seat.old.table_id) × (seat.new.id ≡ seat.old.id) × M.then seat.old.me seat.new.me }
{}

//! A value in the open, and the threads that may touch it.
//!
//! The seat that stands for a right lies in the place while the value is open, and comes out of it as
//! the place is shut: nothing is counted or asked, and no instruction is spent.
ghost use Rattle.std.specs.Prelude.{◌≡◌, [], ◌∷◌};
ghost use Rattle.lock_values.specs.Owning.{alone, among};
ghost use Rattle.core_words.specs.declared.views.View.{View};
ghost use Rattle.core_words.specs.contracts.views.View.{the_row as view_row};
ghost use Rattle.lock_values.specs.Ownership.{PlaceId, place_id_coded, place_shares, place_owns, Excluded};
ghost use Rattle.lock_values.specs.Ownership.{seen_owns, open_owns, open_shares};

use atomic_table::{Badge, Shared, TableRule};
use core_words::View;
use std::marker::{Model, Move, Owns, PhantomData};

/// Names the word that guards the places that are made of it.
pub trait NamesPlace {
    ghost place: { Self → PlaceId };
}

/// A value that is touched by a thread that owns a word, or the place itself. In a clause it is the
/// table and the word's number.
pub struct Place<T> {
    pub(crate) value: T,
}

impl<T> Owns for Place<T> {
    ghost Value = { PlaceId };

    ghost coded = { place_id_coded };

    ghost shr_at = { λ id p κ. place_shares T.row view_row.coded (alone id.at) (among id.at) id.table p κ };
}

impl<T> Move for Place<T> {
    ghost own_val = { λ _ vs. place_owns T.row (λ x. Fields.own_val (record { value = x }) vs) };
}

/// A place that is open to read, beside others. In a clause `value` is what stands there.
/// It stays in its thread, by its type.
pub struct Seen<'a, T> {
    pub(crate) place: &'a Place<T>,
    pub(crate) here: PhantomData<*const ()>,
    pub ghost of: { PlaceId } by { place_id_coded },
    pub ghost view: { View },
    pub ghost value: { T },
}

impl<'a, T> Model for Seen<'a, T> {
    ghost also_owns = { λ o. seen_owns 'a T.row view_row.coded (alone o.of.at) (among o.of.at) o.of.table o.place.ref_ptr o.view o.value };

    ghost also_shares = { λ o _ κ. open_shares 'a T.row o.place.ref_ptr o.value κ };
}

/// A place that is open to write. It stays in its thread, by its type.
pub struct Open<'a, T> {
    pub(crate) place: &'a Place<T>,
    pub(crate) here: PhantomData<*const ()>,
    pub ghost of: { PlaceId } by { place_id_coded },
    pub ghost view: { View },
    pub ghost value: { T },
}

impl<'a, T> Model for Open<'a, T> {
    ghost also_owns = { λ o. open_owns 'a T.row view_row.coded (alone o.of.at) (among o.of.at) o.of.table o.place.ref_ptr o.view o.value };

    ghost also_shares = { λ o _ κ. open_shares 'a T.row o.place.ref_ptr o.value κ };
}

impl<T> Place<T> {
    /// Makes a place that is guarded by the word which `of` names.
    #[inline]
    pub fn new<N: NamesPlace>(value: T, of: &N) -> Place<T>
        ensures { result ≡ N.place of.now }
    {
        let _ = of;
        Place { value }
    }

    /// Takes the value out.
    #[inline]
    pub fn into_inner(self) -> T {
        let Self { value } = self;
        value
    }

    /// Opens the place to read, for a thread that owns its word among others. The badge is left
    /// blank.
    #[inline]
    pub fn take_to_read<S, K, P: TableRule<S, View, K>>(
        &self,
        table: &Shared<S, View, K, P>,
        badge: &mut Badge<View>,
    ) -> Seen<'_, T>
        requires { (table.now.table_id ≡ self.now.table) × (badge.old.table_id ≡ self.now.table) × Excluded (P.holds table.now.key) (alone self.now.at) (among self.now.at) × ((v : View) × (badge.old.views ≡ v ∷ []) × among self.now.at v) }
        ensures { (result.of ≡ self.now) × (badge.old.views ≡ result.view ∷ []) × (badge.new.views ≡ []) }
    {
        Seen {
            place: self,
            here: PhantomData,
        }
    }

    /// Opens the place to read, by a badge that is handed in.
    #[inline]
    pub fn read<S, K, P: TableRule<S, View, K>>(
        &self,
        table: &Shared<S, View, K, P>,
        mut badge: Badge<View>,
    ) -> Seen<'_, T>
        requires { (table.now.table_id ≡ self.now.table) × (badge.table_id ≡ self.now.table) × Excluded (P.holds table.now.key) (alone self.now.at) (among self.now.at) × ((v : View) × (badge.views ≡ v ∷ []) × among self.now.at v) }
        ensures { (result.of ≡ self.now) × (badge.views ≡ result.view ∷ []) }
    {
        self.take_to_read(table, &mut badge)
    }

    /// Opens the place to write, for a thread that owns its word alone. The badge is left blank.
    #[inline]
    pub fn take_to_write<S, K, P: TableRule<S, View, K>>(
        &self,
        table: &Shared<S, View, K, P>,
        badge: &mut Badge<View>,
    ) -> Open<'_, T>
        requires { (table.now.table_id ≡ self.now.table) × (badge.old.table_id ≡ self.now.table) × Excluded (P.holds table.now.key) (alone self.now.at) (among self.now.at) × ((v : View) × (badge.old.views ≡ v ∷ []) × alone self.now.at v) }
        ensures { (result.of ≡ self.now) × (badge.old.views ≡ result.view ∷ []) × (badge.new.views ≡ []) }
    {
        Open {
            place: self,
            here: PhantomData,
        }
    }

    /// Opens the place to write, by a badge that is handed in.
    #[inline]
    pub fn write<S, K, P: TableRule<S, View, K>>(
        &self,
        table: &Shared<S, View, K, P>,
        mut badge: Badge<View>,
    ) -> Open<'_, T>
        requires { (table.now.table_id ≡ self.now.table) × (badge.table_id ≡ self.now.table) × Excluded (P.holds table.now.key) (alone self.now.at) (among self.now.at) × ((v : View) × (badge.views ≡ v ∷ []) × alone self.now.at v) }
        ensures { (result.of ≡ self.now) × (badge.views ≡ result.view ∷ []) }
    {
        self.take_to_write(table, &mut badge)
    }
}

impl<T> Seen<'_, T> {
    /// Shuts the place, and gives the right back.
    #[inline]
    pub fn put_back_permit<S, K, P: TableRule<S, View, K>>(
        self,
        table: &Shared<S, View, K, P>,
        badge: &mut Badge<View>,
    )
        requires { (table.now.table_id ≡ self.of.table) × Excluded (P.holds table.now.key) (alone self.of.at) (among self.of.at) }
        ensures { (badge.new.table_id ≡ self.entry.of.table) × (badge.new.views ≡ self.entry.view ∷ []) }
    {
        let Seen { place: _, here: _ } = self;
    }

    /// Shuts a place that was read, and answers its badge.
    #[inline]
    pub fn close<S, K, P: TableRule<S, View, K>>(self, table: &Shared<S, View, K, P>) -> Badge<View>
        requires { (table.now.table_id ≡ self.of.table) × Excluded (P.holds table.now.key) (alone self.of.at) (among self.of.at) }
        ensures { (result.table_id ≡ self.entry.of.table) × (result.views ≡ self.entry.view ∷ []) }
    {
        let mut badge = Badge::blank();
        self.put_back_permit(table, &mut badge);
        badge
    }
}

impl<T> Open<'_, T> {
    /// Shuts the place, and gives the right back.
    #[inline]
    pub fn put_back_permit<S, K, P: TableRule<S, View, K>>(
        self,
        table: &Shared<S, View, K, P>,
        badge: &mut Badge<View>,
    )
        requires { (table.now.table_id ≡ self.of.table) × Excluded (P.holds table.now.key) (alone self.of.at) (among self.of.at) }
        ensures { (badge.new.table_id ≡ self.entry.of.table) × (badge.new.views ≡ self.entry.view ∷ []) }
    {
        let Open { place: _, here: _ } = self;
    }

    /// Shuts a place that was written, and answers its badge.
    #[inline]
    pub fn close<S, K, P: TableRule<S, View, K>>(self, table: &Shared<S, View, K, P>) -> Badge<View>
        requires { (table.now.table_id ≡ self.of.table) × Excluded (P.holds table.now.key) (alone self.of.at) (among self.of.at) }
        ensures { (result.table_id ≡ self.entry.of.table) × (result.views ≡ self.entry.view ∷ []) }
    {
        let mut badge = Badge::blank();
        self.put_back_permit(table, &mut badge);
        badge
    }
}

impl<T: Drop> Drop for Place<T> {
    fn drop(self) {
        drop(self.into_inner());
    }
}

unsafe impl<T: Send> Send for Place<T> {}

unsafe impl<T: Send + Sync> Sync for Place<T> {}

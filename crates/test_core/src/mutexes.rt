//! A mutex of one step each way.
ghost use Rattle.std.specs.Prelude.{◌≡◌, IfSome};
ghost use Rattle.core_words.specs.Lots.{IsWordOf};
ghost use Rattle.core_words.specs.RightsOf.{IsRightOf};
ghost use Rattle.core_words.specs.declared.words.WordKind.TheVariants.{Mutex};
ghost use Rattle.core_words.specs.declared.owners.Owner.TheVariants.{Exclusive};
ghost use Rattle.parking_lot_core.specs.Tokens.{IsTokenOf, IsSameThread, view_of};

use parking_lot_core::{Op, ParkingLot, Right, Token, Want, Word};

/// The right of a mutex that nobody has.
pub fn try_lock(lot: &ParkingLot, token: &mut Token, word: Word) -> Option<Right>
    requires { IsTokenOf lot.now token.old × IsWordOf lot.now.words word × (word.kind ≡ Mutex) }
    ensures own { IsSameThread lot.now token.old token.new
        × ((view_of token.new).owns ≡ (view_of token.old).owns) }
    ensures right { IfSome result
        (λ right. IsRightOf lot.now.words right × (right.word ≡ word) × (right.owner ≡ Exclusive)) }
{
    let found = lot.step_word(token, word, Op::Exchange { from: 0, to: 1 });
    if found != 0 {
        return None;
    }
    Some(lot.split_right(token, word, Want::Exclusive))
}

/// Gives a mutex up. Returns the value before.
pub fn unlock(lot: &ParkingLot, token: &mut Token, right: Right) -> u64
    requires { IsTokenOf lot.now token.old × IsRightOf lot.now.words right
        × (right.word.kind ≡ Mutex)
        × (right.owner ≡ Exclusive) }
    ensures { IsSameThread lot.now token.old token.new
        × ((view_of token.new).owns ≡ (view_of token.old).owns) }
{
    let word = right.word();
    lot.join_right(token, right);
    lot.step_word(token, word, Op::Sub(1))
}

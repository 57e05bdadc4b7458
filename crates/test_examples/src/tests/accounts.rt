//! Two accounts in one struct, each under a mutex of its own.
ghost use Rattle.std.specs.Prelude.{◌≡◌, IfOk};
ghost use Rattle.std.specs.Arc.{arc_value};
ghost use Rattle.parking_lot.specs.LotOf.{IsTokenOf, lot_of};

use super::check_eq;
use parking_lot::{Fault, Mutex, ParkingLot, Team, Token};
use std::sync::{Arc, Wait};
use std::test::Fail;

/// Both accounts are of one lot, as the field says that has no bytes.
#[derive(Drop)]
struct Accounts {
    savings: Mutex<u64>,
    current: Mutex<u64>,
    ghost together: { lot_of savings ≡ lot_of current },
}

impl Accounts {
    fn new(lot: &Arc<ParkingLot>, token: &mut Token, savings: u64) -> Result<Accounts, Fault>
        requires { IsTokenOf (arc_value lot.now) token.old }
        ensures token { IsTokenOf (arc_value lot.now) token.new }
        ensures made { IfOk result (λ accounts. lot_of accounts.current ≡ arc_value lot.now) }
    {
        let savings = Mutex::new(lot, token, savings)?;
        let current = Mutex::new(lot, token, 0)?;
        Ok(Accounts { savings, current })
    }

    // Moves a sum where there is as much. All threads lock the savings first, so none waits for
    // another that waits for it.
    fn transfer<R: Wait>(&self, rt: &R, token: &mut Token, sum: u64)
        requires { IsTokenOf (lot_of self.now.current) token.old }
        ensures { IsTokenOf (lot_of self.now.current) token.new }
    {
        let mut savings = self.savings.lock(rt, token);
        let mut current = self.current.lock(rt, token);
        if let (Some(less), Some(more)) = (savings.checked_sub(sum), current.checked_add(sum)) {
            *savings = less;
            *current = more;
        }
        current.unlock(rt, token);
        savings.unlock(rt, token);
    }
}

#[test]
fn two_accounts(rt: HostRuntime) -> Result<(), Fail> {
    let (team, mut token) = Team::new(rt.alloc(), 3)?;
    let accounts = Accounts::new(team.lot(), &mut token, 100)?;
    team.run_times(
        &rt,
        20,
        &|token: &mut Token| accounts.transfer(&rt, token, 3),
    )?;
    let Accounts { savings, current } = accounts;
    check_eq(&rt, [savings.into_inner(), current.into_inner()], [1, 99]);
    Ok(())
}

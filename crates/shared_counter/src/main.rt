//! Counts to 4000 in four threads.
#![tactic(auto)]

ghost use Rattle.parking_lot.specs.LotOf.{IsTokenOf, lot_of};

use anyhow::Result;
use parking_lot::{Fault, Mutex, Team, Token};

fn main(rt: HostRuntime) -> Result<()> {
    let (team, mut token) = Team::new(rt.alloc(), 4)?;
    let total = Mutex::new(team.lot(), &mut token, 0u64).map_err(Fault::from)?;
    team.run_times(
        &rt,
        1000,
        &|token: &mut Token|
            requires { IsTokenOf (lot_of total) token.old }
        {
            total.with(&rt, token, |value: &mut u64| {
                *value = value.wrapping_add(1);
            });
        },
    )?;
    println!(rt; "{}", total.into_inner())?;
    Ok(())
}

//! Rates that are read from a text once, by the thread that asks first. A text that can't be read
//! leaves the cell empty.
ghost use Rattle.std.specs.Prelude.{◌≡◌};
ghost use Rattle.parking_lot.specs.LotOf.{IsTokenOf, lot_of_once};

use super::{all_are, check, check_eq};
use parking_lot::{OnceCell, Team, Token};
use std::num::ParseIntError;
use std::sync::Wait;
use std::sync::atomic::AtomicUsize;
use std::sync::atomic::Ordering::SeqCst;
use std::test::Fail;

const RATES: &str = "19";

/// Returns the rate by which a price is taxed, in percent.
#[derive(Drop)]
struct Rate {
    percent: u32,
}

// The rate, which is read from the text first if nobody has.
fn rate_of<'a, R: Wait>(
    rt: &R,
    rate: &'a OnceCell<Rate>,
    token: &mut Token,
    text: &str,
    reads: &AtomicUsize,
) -> Result<&'a Rate, ParseIntError>
    requires { IsTokenOf (lot_of_once rate.now.0) token.old }
    ensures { IsTokenOf (lot_of_once rate.now.0) token.new }
{
    rate.get_or_try_init(rt, token, move || {
        reads.fetch_add(1, SeqCst);
        let percent = text.parse::<u32>()?;
        Ok(Rate { percent })
    })
}

// Returns a price with its tax, or nothing where the rate can't be read.
fn taxed<R: Wait>(
    rt: &R,
    rate: &OnceCell<Rate>,
    token: &mut Token,
    reads: &AtomicUsize,
) -> Option<u64>
    requires { IsTokenOf (lot_of_once rate.now.0) token.old }
{
    let percent = rate_of(rt, rate, token, RATES, reads).ok()?.percent;
    u64::from(percent).checked_mul(10)?.checked_add(1000)
}

// Shows the rate twice, and tells that both times it is one.
fn shown_twice<R: Wait>(rt: &R, rate: &OnceCell<Rate>, token: &mut Token) -> (u32, u32)
    requires { IsTokenOf (lot_of_once rate.now.0) token.old }
    ensures { result.0 ≡ result.1 }
{
    let one = rate.show_or_init(rt, token, || Rate { percent: 7 });
    let other = rate.show_or_init(rt, token, || Rate { percent: 8 });
    one.agrees(&other);
    (rate.value(&one).percent, rate.value(&other).percent)
}

#[test]
fn a_value_that_is_shown_twice_is_one(rt: HostRuntime) -> Result<(), Fail> {
    let (team, mut token) = Team::new(rt.alloc(), 1)?;
    let rate = OnceCell::new(team.lot(), &mut token)?;
    check(&rt, rate.witness().is_none());
    check_eq(&rt, shown_twice(&rt, &rate, &mut token), (7, 7));
    check(&rt, rate.witness().is_some());
    Ok(())
}

#[test]
fn a_value_that_is_made_once(rt: HostRuntime) -> Result<(), Fail> {
    let (team, mut token) = Team::new(rt.alloc(), 2)?;
    let rate = OnceCell::new(team.lot(), &mut token)?;
    let reads = AtomicUsize::new(0);
    check(
        &rt,
        rate_of(&rt, &rate, &mut token, "nineteen", &reads).is_err(),
    );
    check(&rt, rate.get().is_none());
    let found = team.run(&rt, &|token: &mut Token| taxed(&rt, &rate, token, &reads))?;
    check(&rt, all_are(&found, &Some(1190)));
    check_eq(&rt, reads.load(SeqCst), 2);
    Ok(())
}

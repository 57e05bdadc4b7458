//! Prices with their tax, which many threads look up. The first that misses one works it out, and
//! the others find it.
ghost use Rattle.std.specs.Prelude.{◌≡◌, ◌+◌, ◌*◌, ◌/◌, IfOk, IfSome};
ghost use Rattle.parking_lot.specs.LotOf.{IsTokenOf, lot_of_rwlock};

use super::{all_are, check, check_eq};
use parking_lot::{Fault, RwLock, Team, Token};
use std::sync::Wait;
use std::test::Fail;

const PRICES: [u32; 4] = [100, 250, 999, 1000];

/// A price and what it comes to with its tax. A lock keeps what its value's type says, so a thread
/// that reads finds right prices alone.
#[derive(Clone, Copy)]
struct Priced {
    net: u32,
    gross: u64,
    ghost right: { gross ≡ net + net * 19 / 100 },
}

fn work_out(net: u32) -> Priced
    ensures { result.net ≡ net }
{
    let price = u64::from(net);
    Priced {
        net,
        gross: price + price * 19 / 100,
    }
}

fn find(known: &[Priced], net: u32) -> Option<u64>
    ensures { IfSome result (λ gross. gross ≡ net + net * 19 / 100) }
{
    for priced in known {
        if priced.net == net {
            return Some(priced.gross);
        }
    }
    None
}

// Reads beside others that read, and waits for nobody but a writer.
fn look_up<R: Wait>(
    rt: &R,
    cache: &RwLock<Vec<Priced>>,
    token: &mut Token,
    net: u32,
) -> Result<u64, Fault>
    requires { IsTokenOf (lot_of_rwlock cache.now) token.old }
    ensures token { IsTokenOf (lot_of_rwlock cache.now) token.new }
    ensures right { IfOk result (λ gross. gross ≡ net + net * 19 / 100) }
{
    match cache.with_read(rt, token, |known: &Vec<Priced>| find(known, net))? {
        Some(gross) => Ok(gross),
        None => fill_in(rt, cache, token, net),
    }
}

// One thread at a time looks with the right to write later, so none works out what another has
// written meanwhile. Readers are kept out only from the upgrade on.
fn fill_in<R: Wait>(
    rt: &R,
    cache: &RwLock<Vec<Priced>>,
    token: &mut Token,
    net: u32,
) -> Result<u64, Fault>
    requires { IsTokenOf (lot_of_rwlock cache.now) token.old }
    ensures token { IsTokenOf (lot_of_rwlock cache.now) token.new }
    ensures right { IfOk result (λ gross. gross ≡ net + net * 19 / 100) }
{
    cache.with_upgradable(
        rt,
        token,
        |known: &Vec<Priced>|
            ensures { IfSome result (λ found. IfOk found (λ gross. gross ≡ net + net * 19 / 100)) }
        { find(known, net).map(Ok) },
        |known: &mut Vec<Priced>|
            ensures { IfOk result (λ gross. gross ≡ net + net * 19 / 100) }
        {
            let priced = work_out(net);
            known.push(priced)?;
            Ok(priced.gross)
        },
    )?
}

// Returns the sum of all prices.
fn look_up_all<R: Wait>(
    rt: &R,
    cache: &RwLock<Vec<Priced>>,
    token: &mut Token,
) -> Result<u64, Fault>
    requires { IsTokenOf (lot_of_rwlock cache.now) token.old }
{
    let mut total = 0u64;
    for net in PRICES {
        total = total.wrapping_add(look_up(rt, cache, token, net)?);
    }
    Ok(total)
}

#[test]
fn a_cache(rt: HostRuntime) -> Result<(), Fail> {
    let (team, mut token) = Team::new(rt.alloc(), 2)?;
    let cache = RwLock::new(team.lot(), &mut token, Vec::new(rt.alloc())).map_err(Fault::from)?;
    let found = team.run(&rt, &|token: &mut Token| look_up_all(&rt, &cache, token))?;
    check(&rt, all_are(&found, &Ok(2794)));
    // The second look of `fill_in` finds what is there.
    check_eq(&rt, fill_in(&rt, &cache, &mut token, 1000), Ok(1190));
    check_eq(&rt, cache.into_inner().len(), 4);
    Ok(())
}

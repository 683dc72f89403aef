//! Fetches in the stages.
ghost use Rattle.std.specs.Prelude.{◌≡◌, ◌<◌, ◌^◌, IfSome, if◌then◌else◌, ℕ, Option};
ghost use Rattle.mx_isa.specs.Effect.{Decision};
ghost use Rattle.mx_delay.specs.Delay.{next_of};
ghost use Rattle.mx_pcchain.specs.declared.chain.Chain.{Chain};
ghost use Rattle.mx_pcchain.specs.Chain.{fetch_from, pop};
ghost use Rattle.mx_pcchain.specs.Modes.{psw_restored};
ghost use Rattle.mx_turn.specs.Stages.{fetch_of, address_of, squash, saved, stage_of};

use crate::Stage;
use mx_pcchain::{Chain, Fetched, Psw};

/// The fetch of an address below 2^31.
pub fn fetch_of(address: u32) -> Fetched
    requires { address < 2 ^ 31 }
    ensures { result ≡ fetch_of address }
{
    Fetched {
        address,
        squashed: false,
    }
}

/// A stage, squashed where a branch cancels it.
pub fn squash(cancels: bool, stage: Option<Fetched>) -> Option<Fetched>
    ensures { result ≡ squash cancels stage }
{
    match stage {
        Some(fetched) => Some(Fetched {
            address: fetched.address,
            squashed: cancels || fetched.squashed,
        }),
        None => None,
    }
}

/// What the chain keeps of a stage.
pub fn saved(stage: Option<Fetched>) -> Fetched
    ensures { result ≡ saved stage }
{
    match stage {
        Some(fetched) => fetched,
        None => fetch_of(0),
    }
}

/// What a trace shows of a stage.
pub fn stage_of(stage: Option<Fetched>) -> Stage
    ensures { result ≡ stage_of stage }
{
    match stage {
        Some(fetched) => shown(&fetched),
        None => Stage::Empty,
    }
}

fn shown(fetched: &Fetched) -> Stage
    ensures { result ≡ (if fetched.now.squashed then Stage.Squashed fetched.now.address else Stage.Live fetched.now.address) }
{
    if fetched.squashed {
        Stage::Squashed(fetched.address)
    } else {
        Stage::Live(fetched.address)
    }
}

/// What the next turn fetches: the first fetch of the chain, or by the decision.
pub fn led(back: bool, chain: &Chain, target: Option<u32>, last: Fetched) -> Fetched
    requires { IfSome target (λ a. a < 2 ^ 31) }
    ensures { result ≡ (if back then fetch_from chain.now.pc1 else fetch_of (next_of target last.address)) }
{
    if back {
        return Fetched::from_entry(chain.pc1);
    }
    match target {
        Some(target) => fetch_of(target),
        None => fetch_of(last.address.wrapping_add(1) % (1 << 31)),
    }
}

/// The chain, popped or not.
pub fn popped(back: bool, chain: Chain) -> Chain
    ensures { result ≡ (if back then pop chain else chain) }
{
    let mut chain = chain;
    if back {
        let _ = chain.pop();
    }
    chain
}

/// The modes, with the other one brought back or not.
pub fn restored(restores: bool, psw: Psw) -> Psw
    ensures { result ≡ (if restores then psw_restored psw else psw) }
{
    let mut psw = psw;
    if restores {
        psw.restore();
    }
    psw
}

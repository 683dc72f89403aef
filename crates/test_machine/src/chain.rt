//! The chain of saved fetches and the modes.
ghost use Rattle.std.specs.Prelude.{◌<◌, ◌^◌};

use crate::same::same;
use mx_isa::Special;
use mx_pcchain::{Chain, Fetched, Mode, Psw};

fn fetched(address: u32, squashed: bool) -> Fetched
    requires { address < 2 ^ 31 }
{
    Fetched { address, squashed }
}

/// What PC1, PC2 and PC3 give behind saved fetches and a write of PC3, and the fetches that come back.
fn told(chain: &mut Chain) -> ([u32; 3], [Fetched; 2], u32) {
    chain.enter(
        fetched(4101, true),
        fetched(4107, false),
        fetched(4101, true),
    );
    let pc1 = chain.read(Special::Pc1);
    chain.write(Special::Pc3, 4096);
    let saved = [chain.pop(), chain.pop()];
    let third = chain.pop().address;
    let pc2 = chain.read(Special::Pc2);
    chain.enter(
        fetched(4096, false),
        fetched(4097, false),
        fetched(4098, true),
    );
    ([pc1, pc2, chain.read(Special::Pc3)], saved, third)
}

/// Each comes back with its mark, also the third of others.
#[test]
fn saved_fetches_come_back_with_their_marks(rt: HostRuntime) {
    let told = told(&mut Chain::new());
    let saved = [fetched(4101, true), fetched(4107, false)];
    same(&rt, &told, &([0x8000_1005, 4096, 0x8000_1002], saved, 4096));
}

#[test]
fn the_interrupted_mode_is_restored(rt: HostRuntime) {
    let system = Mode {
        user: false,
        interrupts: false,
    };
    let user = Mode {
        user: true,
        interrupts: true,
    };
    let mut psw = Psw::start();
    psw.enter();
    same(&rt, &psw.current, &system);
    psw.restore();
    same(&rt, &psw.current, &user);
}

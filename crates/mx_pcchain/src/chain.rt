//! The chain of saved fetches.
ghost use Rattle.std.specs.Prelude.{◌≡◌, ◌≢◌};
ghost use Rattle.mx_pcchain.specs.Chain.{empty_chain, chain_of, fetch_from, pop, special, with_special};

use crate::Fetched;
use mx_isa::Special;

/// The three saved fetches, oldest first, each an address in bits 0 to 30 and the squashed flag in
/// bit 31 (this project's profile).
#[derive(Clone, Copy, Debug, PartialEq, Eq)]
pub struct Chain {
    pub pc1: u32,
    pub pc2: u32,
    pub pc3: u32,
}

impl Chain {
    /// A chain of three zeros.
    pub fn new() -> Chain
        ensures { result ≡ empty_chain }
    {
        Chain {
            pc1: 0,
            pc2: 0,
            pc3: 0,
        }
    }

    /// Saves the fetches that an interrupt kills.
    pub fn enter(&mut self, alu: Fetched, rf: Fetched, fetch: Fetched)
        ensures { self.new ≡ chain_of alu rf fetch }
    {
        self.pc1 = alu.entry();
        self.pc2 = rf.entry();
        self.pc3 = fetch.entry();
    }

    /// The word pc1, pc2 or pc3.
    pub fn read(&self, name: Special) -> u32
        requires { name ≢ Special.Md }
        ensures { result ≡ special self.now name }
    {
        match name {
            Special::Md => 0,
            Special::Pc1 => self.pc1,
            Special::Pc2 => self.pc2,
            Special::Pc3 => self.pc3,
        }
    }

    /// Writes the word pc1, pc2 or pc3.
    pub fn write(&mut self, name: Special, word: u32)
        requires { name ≢ Special.Md }
        ensures { self.new ≡ with_special self.old name word }
    {
        match name {
            Special::Md => {}
            Special::Pc1 => self.pc1 = word,
            Special::Pc2 => self.pc2 = word,
            Special::Pc3 => self.pc3 = word,
        }
    }

    /// The fetch of pc1, with its squashed flag; pc2 and pc3 move up, and pc3 stays.
    pub fn pop(&mut self) -> Fetched
        ensures fetch { result ≡ fetch_from self.old.pc1 }
        ensures rest { self.new ≡ pop self.old }
    {
        let fetched = Fetched::from_entry(self.pc1);
        self.pc1 = self.pc2;
        self.pc2 = self.pc3;
        fetched
    }
}
